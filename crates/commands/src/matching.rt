// Matching a command: the set of places of the command that the pattern read so far can have come to.
ghost use Rattle.std.specs.Prelude.{◌≡◌, ◌⊎◌, ◌↔◌, false, true, eqb, ℕ, ◌+◌, ◌-◌, ◌≤◌, ◌<◌, drop, get_or, length};
ghost use Rattle.scpi.specs.Bytes.{upper};
ghost use Rattle.commands.specs.Spelling.{Matches};
ghost use Rattle.scpi.specs.Words.{part, starts};
ghost use Rattle.bits.specs.Bits.{bit};
ghost use Rattle.commands.specs.Landing.{Spread};
ghost use Rattle.commands.specs.Places.{Member, weight};
ghost use Rattle.commands.specs.Sets.{On, Lands};
ghost use Rattle.scpi.specs.Answers.{Says};
ghost use Rattle.commands.specs.Walks.{Bracketed, Closes, ItemAt, Walked, Worded, to_of, set_of};

use bits::power_of;
use scpi::LONGEST;
use scpi::bytes::{goes_on, run_end};
use scpi::checking::check;

// Where a walk came to: a place of the pattern and a set of places of the command, a bit for each. A walk along a bad pattern comes to none.
#[derive(Clone, Copy)]
struct Walk {
    at: usize,
    on: [u64; 3],
}

// Is the bit set?
fn has(m: u64, i: usize) -> bool
    requires { i < 64 }
    ensures { Says result (bit m i ≡ 1) }
{
    (m >> i) % 2 == 1
}

fn holds(s: &[u64; 3], j: usize) -> bool
    requires { j < 192 }
    ensures { Says result (On s.now j) }
{
    has(s[j / 64], j % 64)
}

// The set with place j.
fn with(s: [u64; 3], j: usize) -> [u64; 3]
    requires { j < 192 }
    ensures { (k : ℕ) → On result k ↔ (On s k ⊎ (k ≡ j)) }
{
    if j < 64 {
        return [s[0] | power_of(j), s[1], s[2]];
    }
    if j < 128 {
        return [s[0], s[1] | power_of(j - 64), s[2]];
    }
    [s[0], s[1], s[2] | power_of(j - 128)]
}

// The set without place j, one of its own.
fn without(s: [u64; 3], j: usize) -> [u64; 3]
    requires { On s j }
    ensures { ((k : ℕ) → On s k ↔ (On result k ⊎ (k ≡ j))) × (weight result < weight s) }
{
    if j < 64 {
        return [s[0] - power_of(j), s[1], s[2]];
    }
    if j < 128 {
        return [s[0], s[1] - power_of(j - 64), s[2]];
    }
    [s[0], s[1], s[2] - power_of(j - 128)]
}

// A place of the set.
fn member(s: &[u64; 3]) -> Option<usize>
    ensures { Member s.now result }
{
    for k in 0..3 {
        let i = s[k].trailing_zeros() as usize;
        if i < 64 {
            return Some(64 * k + i);
        }
    }
    None
}

fn union(a: &[u64; 3], b: &[u64; 3]) -> [u64; 3]
    ensures { (j : ℕ) → On result j ↔ (On a.now j ⊎ On b.now j) }
{
    [a[0] | b[0], a[1] | b[1], a[2] | b[2]]
}

// The set t, and where spellings end that begin at i, where the short form, the bytes from a up to m, is there: behind it, or behind the long form, the bytes up to e.
fn spread_on(t: [u64; 3], p: &[u8], a: usize, m: usize, e: usize, c: &[u8], i: usize) -> [u64; 3]
    requires { (a < m) × (m ≤ e) × (e ≤ length p.now) × (length c.now ≤ 128) × (i ≤ length c.now) × (starts (part a m p.now) (drop i c.now) ≡ true) }
    ensures { Spread (part a m p.now) (part a e p.now) c.now i t result }
{
    let u = with(t, i + (m - a));
    if m == e {
        return u;
    }
    if !goes_on(p, m, e, c, i + (m - a)) {
        return u;
    }
    with(u, i + (e - a))
}

// Is y another byte than x, which is a colon or another sign before the letters? Most places of a set are no colon's.
fn differs(x: u8, y: u8) -> bool
    ensures { result ≡ true → eqb (upper x) (upper y) ≡ false }
{
    x < b'A' && x != y
}

// The same where the short form may be another.
fn spread(t: [u64; 3], p: &[u8], a: usize, m: usize, e: usize, c: &[u8], i: usize) -> [u64; 3]
    requires { (a < m) × (m ≤ e) × (e ≤ length p.now) × (length c.now ≤ 128) }
    ensures { Spread (part a m p.now) (part a e p.now) c.now i t result }
{
    if i >= c.len() {
        return t;
    }
    if differs(p[a], c[i]) {
        return t;
    }
    if !goes_on(p, a, m, c, i) {
        return t;
    }
    spread_on(t, p, a, m, e, c, i)
}

// The set behind these bytes, from all places of a set.
fn step(s: &[u64; 3], p: &[u8], a: usize, m: usize, e: usize, c: &[u8]) -> [u64; 3]
    requires { (a < m) × (m ≤ e) × (e ≤ length p.now) × (length c.now ≤ 128) }
    ensures { (j : ℕ) → On result j ↔ (Lands (part a m p.now) c.now s.now j ⊎ Lands (part a e p.now) c.now s.now j) }
{
    let mut left = *s;
    let mut on = [0u64; 3];
    // Kept: what is walked is a set that shrinks from turn to turn; nothing is counted.
    while let Some(i) = member(&left) {
        let rest = without(left, i);
        let more = spread(on, p, a, m, e, c, i);
        left = rest;
        on = more;
    }
    on
}

// A colon and a word: bad where no capital is behind the colon.
fn match_word(p: &[u8], at: usize, c: &[u8], s: [u64; 3]) -> Option<Walk>
    requires { (at < length p.now) × (length p.now ≤ 128) × (length c.now ≤ 128) }
    ensures { Worded p.now at c.now s (to_of p.now result) (set_of s result) }
{
    let m = run_end(p, at + 1, b'A', b'Z');
    if m == at + 1 {
        return None;
    }
    let end = run_end(p, m, b'a', b'z');
    let on = step(&s, p, at, m, end, c);
    Some(Walk { at: end, on })
}

// Does an item of a row begin here? `left` brackets may still be opened.
fn begins_item(p: &[u8], at: usize, left: usize) -> bool
    ensures { Says result (ItemAt left p.now at) }
{
    at < p.len() && (p[at] == b':' || (p[at] == b'[' && left > 0))
}

// A row of colon-and-word and brackets, from `at` on, item by item: so only brackets deepen the stack.
#[cycle(match_bracket_match_path)]
fn match_path(p: &[u8], at: usize, left: usize, c: &[u8], s: [u64; 3]) -> Option<Walk>
    requires { (left ≤ 8) × (at ≤ length p.now) × (length p.now ≤ 128) × (length c.now ≤ 128) }
    ensures { Walked (8 - left) p.now at c.now s (to_of p.now result) (set_of s result) }
{
    let mut w = Walk { at, on: s };
    // Kept: each turn goes on where the last one came to; nothing is counted.
    while begins_item(p, w.at, left) {
        if p[w.at] == b':' {
            w = match_word(p, w.at, c, w.on)?;
        } else {
            w = match_bracket(p, w.at + 1, left - 1, c, w.on)?;
        }
    }
    Some(w)
}

// Does "]" stand at i, behind a row from `at` on that is not empty?
fn closes(p: &[u8], at: usize, i: usize) -> bool
    ensures { Says result (Closes p.now at i) }
{
    i < p.len() && p[i] == b']' && i != at
}

// Behind "[": the row that it holds, kept or dropped, and "]". Bad where one of the two is not there: an empty set would not tell, since what
// a bracket holds may be dropped.
#[cycle(match_bracket_match_path)]
fn match_bracket(p: &[u8], at: usize, left: usize, c: &[u8], s: [u64; 3]) -> Option<Walk>
    requires { (left < 8) × (at ≤ length p.now) × (length p.now ≤ 128) × (length c.now ≤ 128) }
    ensures { Bracketed (7 - left) p.now at c.now s (to_of p.now result) (set_of s result) }
{
    let w = match_path(p, at, left, c, s)?;
    if !closes(p, at, w.at) {
        return None;
    }
    let t = w.on;
    let on = union(&s, &t);
    Some(Walk { at: w.at + 1, on })
}

// Behind the star there is no row to walk along: the bytes are compared, and of the few that are alike `check` tells whether they are a pattern.
fn match_star(p: &[u8], c: &[u8]) -> bool
    requires { get_or p.now 0 0 ≡ 42 }
    ensures { Says result (Matches p.now c.now) }
{
    p.len() == c.len() && goes_on(p, 0, p.len(), c, 0) && check(p).is_ok()
}

// Is the command's last byte "?", and the place before it in the set?
fn asked(u: &[u64; 3], c: &[u8]) -> bool
    requires { length c.now ≤ 128 }
    ensures { Says result ((0 < length c.now) × (get_or c.now (length c.now - 1) 0 ≡ 63) × On u.now (length c.now - 1)) }
{
    !c.is_empty() && c[c.len() - 1] == b'?' && holds(u, c.len() - 1)
}

// A word, a row, and perhaps "?": then the end.
fn match_whole(p: &[u8], c: &[u8]) -> bool
    requires { (length p.now ≤ 128) × (length c.now ≤ 128) × (get_or p.now 0 0 ≡ 42 → ⊥) }
    ensures { Says result (Matches p.now c.now) }
{
    let m = run_end(p, 0, b'A', b'Z');
    if m == 0 {
        return false;
    }
    if !goes_on(p, 0, m, c, 0) {
        return false;
    }
    let e = run_end(p, m, b'a', b'z');
    let t = spread_on([0u64; 3], p, 0, m, e, c, 0);
    let Some(w) = match_path(p, e, 8, c, t) else {
        return false;
    };
    let i = w.at;
    let u = w.on;
    if i == p.len() {
        return holds(&u, c.len());
    }
    if i + 1 != p.len() {
        return false;
    }
    if p[i] != b'?' {
        return false;
    }
    asked(&u, c)
}

// Is it a good pattern that spells the command?
pub fn matches(p: &[u8], c: &[u8]) -> bool
    ensures { (result ≡ true) ↔ Matches p.now c.now }
{
    if p.len() > LONGEST || c.len() > LONGEST || p.is_empty() {
        return false;
    }
    if p[0] == b'*' {
        return match_star(p, c);
    }
    match_whole(p, c)
}
