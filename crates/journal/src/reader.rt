// The readers, a place at a time.
ghost use Rattle.std.specs.Prelude.{◌≡◌, ◌+◌, ◌<◌, ◌≤◌, min, length};
ghost use Rattle.journal.specs.Journal.{closed, length_of, reach, whole};
ghost use Rattle.journal.specs.Places.{backward_at, ending_of, forward_at, found_of};

use crate::EntryAt;
use wire::number;

// A body has at most so many bytes (specs: body_limit).
pub const BODY_LIMIT: usize = moves::BODY_LIMIT;

// No byte of a book past these is used (specs: reach).
const REACH: usize = 2147483648;

// "BACK", which begins the closing trailer (specs: mark).
pub const MARK: u64 = 0x4241434b;

// How many of a book's bytes may be used.
pub fn room(len: usize) -> usize
    ensures { result ≡ min len reach }
{
    len.min(REACH)
}

fn length_of(s: &[u8]) -> usize
    requires { 4 ≤ length s.now }
    ensures { (result ≡ length_of s.now) × (result < 4294967296) }
{
    number::number::<4>(s, 0) as usize
}

// Do the bytes begin with a whole entry, with right distance and sum?
pub fn whole_entry(s: &[u8]) -> bool
    ensures { result ≡ whole s.now }
{
    if s.len() < 12 {
        return false;
    }
    let n = length_of(s);
    n <= BODY_LIMIT
        && n + 12 <= s.len()
        && number::number::<4>(s, n + 4) == (n + 4) as u64
        && number::number::<4>(s, n + 8) == u64::from(crc::crc32(&s[..n + 4]))
}

// The entry that begins at a place.
pub fn forward(book: &[u8], at: usize) -> Option<EntryAt>
    ensures { found_of result ≡ forward_at book.now at }
{
    let m = room(book.len());
    if at > m {
        return None;
    }
    let s = &book[at..m];
    if !whole_entry(s) {
        return None;
    }
    let len = length_of(s);
    Some(EntryAt {
        body: at + 4,
        len,
        next: at + len + 12,
    })
}

// The entry that the bytes end with.
fn ending(s: &[u8]) -> Option<EntryAt>
    ensures { found_of result ≡ ending_of s.now }
{
    let e = s.len();
    if e < 8 {
        return None;
    }
    let d = number::number::<4>(s, e - 8) as usize;
    if e < d + 8 {
        return None;
    }
    let start = e - 8 - d;
    let t = &s[start..e];
    if !whole_entry(t) {
        return None;
    }
    let len = length_of(t);
    if len + 4 != d {
        return None;
    }
    Some(EntryAt {
        body: start + 4,
        len,
        next: start,
    })
}

// Do the last twelve bytes begin with "BACK"?
fn is_closed(s: &[u8]) -> bool
    ensures { result ≡ closed s.now }
{
    s.len() >= 12 && number::number::<4>(s, s.len() - 12) == MARK
}

// The entry that ends at a place of a closed journal.
pub fn backward(book: &[u8], at: usize) -> Option<EntryAt>
    ensures { found_of result ≡ backward_at book.now at }
{
    let m = room(book.len());
    if !is_closed(&book[..m]) {
        return None;
    }
    if at > m - 12 {
        return None;
    }
    ending(&book[..at])
}
