// Are two strings the same? In windows of 32, 16 or 8 bytes, the last one first; a window is compared whole, without a way out of its
// middle, and so in a few instructions of the machine's width.
ghost use Rattle.std.specs.Prelude.{◌+◌, ◌<◌, ◌≤◌, eqb, drop, length, take, cond, false, true, ◌≡◌};
ghost use Rattle.model.specs.Lists.{same};

// The bytes of a window. Windows may overlap, so no bytes are left over behind the last.
const WIDE: usize = 32;

const MIDDLE: usize = 16;

const NARROW: usize = 8;

// d, or 1 where the bytes differ: a choice without a branch, so that a window becomes one comparison of the machine's width.
fn mark(d: u64, x: u8, y: u8) -> u64
    ensures { result ≡ cond (eqb x y) d 1 }
{
    if x == y { d } else { 1 }
}

// Are the n bytes from i on the same?
#[tactic(auto, using(crate::specs::Windows::wider))]
fn same_from(a: &[u8], b: &[u8], i: usize, n: usize) -> bool
    requires { (i + n ≤ length a.now) × (i + n ≤ length b.now) }
    ensures { same (take n (drop i a.now)) (take n (drop i b.now)) ≡ result }
{
    let mut d: u64 = 0;
    for k in 0..n {
        d = mark(d, a[i + k], b[i + k]);
    }
    d == 0
}

// Strings of one length, of at least v bytes, in windows of v bytes.
#[tactic(auto, using(crate::specs::Windows::window_differs, crate::specs::Windows::front_wider, crate::specs::Windows::all_same, crate::specs::Windows::last_window))]
fn same_windows(a: &[u8], b: &[u8], v: usize) -> bool
    requires { (0 < v) × (v ≤ length a.now) × (length a.now ≡ length b.now) }
    ensures { same a.now b.now ≡ result }
{
    let last = a.len() - v;
    if !same_from(a, b, last, v) {
        return false;
    }
    for i in (0..last).step_by(v) {
        if !same_from(a, b, i, v) {
            return false;
        }
    }
    true
}

// Are two strings the same, byte by byte?
// Kept: `==` of the slices, which the last arm has, is a call in machine code from four bytes on; a window of 32 bytes takes eighteen
// instructions in line, one of 16 or 8 five or three.
#[inline(never)]
#[tactic(auto, using(crate::specs::Strings::same_lengths))]
pub fn same_bytes(a: &[u8], b: &[u8]) -> bool
    ensures { same a.now b.now ≡ result }
{
    let n = a.len();
    if n != b.len() {
        return false;
    }
    match n {
        WIDE.. => same_windows(a, b, WIDE),
        MIDDLE.. => same_windows(a, b, MIDDLE),
        NARROW.. => same_windows(a, b, NARROW),
        _ => a == b,
    }
}

// Are two strings the same? Most that differ tell it by their lengths or first bytes, which are asked in line; same_bytes is a call.
#[inline(always)]
#[tactic(auto, using(crate::specs::Strings::same_lengths))]
pub fn same_strings(a: &[u8], b: &[u8]) -> bool
    ensures { same a.now b.now ≡ result }
{
    if a.len() != b.len() {
        return false;
    }
    if a.len() > 0 && a[0] != b[0] {
        return false;
    }
    same_bytes(a, b)
}
