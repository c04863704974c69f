// A list of patterns is a text, one pattern a line; it is judged before it is taken. A server may keep the text as it is, with its length: nothing
// has to be moved into rows, the definitions are the same ones, and a text that is taken has at most 4,128 bytes, 32 lines of 129.
ghost use Rattle.std.specs.Prelude.{◌+◌, ◌≤◌, ◌<◌, drop, length, true, ◌≡◌};
ghost use Rattle.commands.specs.Lists.{line_length, lines_of};
ghost use Rattle.commands.specs.Rulings.{Ruled, judged_from};

use super::ListFault;
use scpi::checking::check;

// A list has at most so many patterns.
const MOST_PATTERNS: usize = 32;

// Is there no newline at the 8 places from `at` on? Without a way out of their middle, so that they are asked at once.
fn no_newline(s: &[u8], at: usize) -> bool
    requires { at + 7 < length s.now }
    ensures { result ≡ true → at + line_length (drop at s.now) ≡ at + 8 + line_length (drop (at + 8) s.now) }
{
    let mut found = false;
    for k in 0..8 {
        found |= s[at + k] == b'\n';
    }
    !found
}

// Where the line from `at` on ends: at its newline, or with the text.
pub fn line_end(s: &[u8], at: usize) -> usize
    requires { at ≤ length s.now }
    ensures { (result ≡ at + line_length (drop at s.now)) × (result ≤ length s.now) }
{
    let mut i = at;
    // Kept: the place jumps by windows while none has a newline, and stays for the loop behind: no range says both more plainly.
    while i + 7 < s.len() && no_newline(s, i) {
        i += 8;
    }
    for k in i..s.len() {
        if s[k] == b'\n' {
            return k;
        }
    }
    s.len()
}

fn line_count(text: &[u8]) -> usize
    ensures { result ≡ length (lines_of text.now) }
{
    let mut n = 0;
    let mut at = 0;
    // Kept: the place jumps from line to line, as far as each is long: no range counts it.
    while at < text.len() {
        n += 1;
        at = line_end(text, at) + 1;
    }
    n
}

// The first bad pattern, of however many.
fn first_bad(text: &[u8]) -> Result<(), ListFault>
    ensures { result ≡ judged_from 0 (lines_of text.now) }
{
    let mut pattern = 0;
    let mut at = 0;
    // Kept: the place jumps from line to line, as far as each is long: no range counts it.
    while at < text.len() {
        let e = line_end(text, at);
        if let Err(bad) = check(&text[at..e]) {
            return Err(ListFault::BadPattern {
                pattern,
                place: bad.place,
            });
        }
        pattern += 1;
        at = e + 1;
    }
    Ok(())
}

// Refused where it is too long, else where a pattern is bad: by the first.
pub fn judge(text: &[u8]) -> Result<(), ListFault>
    ensures { Ruled (lines_of text.now) result }
{
    if line_count(text) > MOST_PATTERNS {
        return Err(ListFault::TooMany);
    }
    first_bad(text)
}
