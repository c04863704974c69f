// What a list of patterns allows.
ghost use Rattle.std.specs.Prelude.{ℕ, ◌+◌, ◌≤◌, ◌<◌, get_or, length, take, false, true, ◌↔◌, ◌⊎◌, ◌≡◌};
ghost use Rattle.commands.specs.Lists.{Allows, command_of, lines_of};
ghost use Rattle.commands.specs.Refusing.{begins, behind, opens, Shut};
ghost use Rattle.scpi.specs.Answers.{Says};
ghost use Rattle.scpi.specs.Bytes.{Capital, upper};

use super::listing::line_end;
use super::matching::matches;
use scpi::bytes::{is_between, raised};

// Does a command end before this byte: is it a space or a newline? Few bytes are below a space.
fn ends_command(b: u8) -> bool
    ensures { Says result ((b ≡ 32) ⊎ (b ≡ 10)) }
{
    // Kept: tests with returns of their own, for speed: of `b <= b' ' && ..` LLVM drops the first test, and each byte of a command costs 5 instructions in place of 3.
    if b > b' ' {
        return false;
    }
    if b == b' ' {
        return true;
    }
    b == b'\n'
}

// Where the payload's first space or newline stands, or where it ends.
fn command_end(s: &[u8]) -> usize
    ensures { (take result s.now ≡ command_of s.now) × (result ≤ length s.now) }
{
    for i in 0..s.len() {
        if ends_command(s[i]) {
            return i;
        }
    }
    s.len()
}

// A byte of the command as its capital, 0 behind its end.
fn raised_at(c: &[u8], i: usize) -> u8
    ensures { result ≡ upper (get_or c.now i 0) }
{
    match c.get(i) {
        Some(b) => raised(*b),
        None => 0,
    }
}

// Is there a newline at i, and may a pattern behind it match, by its first two bytes? Without a branch, so that a window of places is asked at once.
fn opens_here(text: &[u8], i: usize, f: u8, g: u8) -> bool
    requires { i + 2 < length text.now }
    ensures { result ≡ opens text.now i f g }
{
    (text[i] == b'\n')
        & (text[i + 1] == f)
        & ((text[i + 2] == g) | !is_between(b'A', b'Z', text[i + 2]))
}

// The same with an early way out, and at the end of the text.
fn opens_at(text: &[u8], i: usize, f: u8, g: u8) -> bool
    requires { i + 1 < length text.now }
    ensures { result ≡ opens text.now i f g }
{
    text[i] == b'\n'
        && text[i + 1] == f
        && (i + 2 >= text.len() || text[i + 2] == g || !is_between(b'A', b'Z', text[i + 2]))
}

// Does none of the 16 places from `at` on open a line that may match?
fn window_is_shut(text: &[u8], at: usize, f: u8, g: u8) -> bool
    requires { at + 17 < length text.now }
    ensures { result ≡ true → Shut text.now f g at (at + 16) }
{
    let mut found = false;
    for k in 0..16 {
        found |= opens_here(text, at + k, f, g);
    }
    !found
}

// Is there a newline at i, and is the byte behind it f? Without a branch.
fn begins_here(text: &[u8], i: usize, f: u8) -> bool
    requires { i + 1 < length text.now }
    ensures { result ≡ begins text.now i f }
{
    (text[i] == b'\n') & (text[i + 1] == f)
}

// Does no line begin with f behind one of the 32 places from `at` on? Asked first, since it is less to ask.
fn none_begins(text: &[u8], at: usize, f: u8) -> bool
    requires { at + 32 < length text.now }
    ensures { result ≡ true → ((g : ℕ) → Shut text.now f g at (at + 32)) }
{
    let mut found = false;
    for k in 0..32 {
        found |= begins_here(text, at + k, f);
    }
    !found
}

// The first place from `at` on that opens a line that may match, or one of the last two.
fn opening_from(text: &[u8], at: usize, f: u8, g: u8) -> usize
    requires { at ≤ length text.now }
    ensures { (at ≤ result) × (result ≤ length text.now) × Shut text.now f g at result × (result + 1 < length text.now → opens text.now result f g ≡ true) }
{
    let mut i = at;
    // Kept: the place jumps by windows while they are shut, first by 32 and then by 16, and stays for the loop behind: no range says that more plainly.
    while i + 32 < text.len() && none_begins(text, i, f) {
        i += 32;
    }
    // Kept: the same by 16.
    while i + 17 < text.len() && window_is_shut(text, i, f, g) {
        i += 16;
    }
    let last = text.len().saturating_sub(1).max(i);
    for k in i..last {
        if opens_at(text, k, f, g) {
            return k;
        }
    }
    last
}

// The same, where the next line is often the next that may match.
fn next_opening(text: &[u8], at: usize, f: u8, g: u8) -> usize
    requires { at ≤ length text.now }
    ensures { (at ≤ result) × (result ≤ length text.now) × Shut text.now f g at result × (result + 1 < length text.now → opens text.now result f g ≡ true) }
{
    if at + 1 >= text.len() || opens_at(text, at, f, g) {
        return at;
    }
    opening_from(text, at, f, g)
}

// Is the text's second byte a capital, and another than g?
fn second_differs(text: &[u8], g: u8) -> bool
    ensures { result ≡ true → Capital (get_or text.now 1 0) × (get_or text.now 1 0 ≡ g → ⊥) }
{
    text.len() >= 2 && text[1] != g && is_between(b'A', b'Z', text[1])
}

// Does the first line match the command? By its first two bytes most do not: f and g are the command's.
fn first_matches(text: &[u8], c: &[u8], f: u8, g: u8) -> bool
    requires { (f ≡ upper (get_or c.now 0 0)) × (g ≡ upper (get_or c.now 1 0)) }
    ensures { (result ≡ true → Allows (lines_of text.now) c.now)
        × (result ≡ false → Allows (lines_of text.now) c.now ↔ Allows (behind text.now) c.now) }
{
    !text.is_empty()
        && text[0] == f
        && !second_differs(text, g)
        && matches(&text[..line_end(text, 0)], c)
}

// Does some pattern of the list match the command? Of most lines behind the first two bytes are looked at, no more.
fn any_matches(text: &[u8], c: &[u8]) -> bool
    ensures { (result ≡ true) ↔ Allows (lines_of text.now) c.now }
{
    let f = raised_at(c, 0);
    let g = raised_at(c, 1);
    if first_matches(text, c, f, g) {
        return true;
    }
    let mut at = opening_from(text, 0, f, g);
    // Kept: the place jumps from opening to opening: no range counts it.
    while at + 1 < text.len() {
        let e = line_end(text, at + 1);
        if matches(&text[at + 1..e], c) {
            return true;
        }
        at = next_opening(text, e, f, g);
    }
    false
}

// Does the list allow the payload?
pub fn allowed(text: &[u8], payload: &[u8]) -> bool
    ensures { (result ≡ true) ↔ Allows (lines_of text.now) (command_of payload.now) }
{
    any_matches(text, &payload[..command_end(payload)])
}
