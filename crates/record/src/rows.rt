// What stands at the front of bytes, and what stands behind it. A row of bytes is its length in 4 bytes, then the bytes.
ghost use Rattle.std.specs.Prelude.{◌≡◌, MatchOption};
ghost use Rattle.record.specs.Layout.{found, get_number, get_row, none};

use wire::number;

// A number of 4 bytes.
pub(crate) fn number4(s: &[u8]) -> Option<(u32, &[u8])>
    ensures { MatchOption result (get_number 4 s.now ≡ none) (λ p. get_number 4 s.now ≡ found p.0 p.1.now) }
{
    if s.len() < 4 {
        return None;
    }
    Some((number::number::<4>(s, 0) as u32, &s[4..]))
}

// A row of at most so many bytes.
pub fn row(s: &[u8], most: usize) -> Option<(&[u8], &[u8])>
    ensures { MatchOption result (get_row most s.now ≡ none) (λ p. get_row most s.now ≡ found p.0.now p.1.now) }
{
    let (n, rest) = number4(s)?;
    let n = n as usize;
    if n > most {
        return None;
    }
    rest.split_at_checked(n)
}
