// Bytes of a pattern, and bytes of a command beside them.
ghost use Rattle.std.specs.Prelude.{◌≡◌, ◌+◌, ◌≤◌, ◌<◌, eqb, length, drop};
ghost use Rattle.scpi.specs.Bytes.{between, upper};
ghost use Rattle.scpi.specs.Words.{leading, starts, part};

// Is b one of the bytes from low to high?
pub fn is_between(low: u8, high: u8, b: u8) -> bool
    ensures { result ≡ between low high b }
{
    low <= b && b <= high
}

// A small letter as its capital.
pub fn raised(b: u8) -> u8
    ensures { result ≡ upper b }
{
    b.to_ascii_uppercase()
}

// Are they one byte, whatever their case? Most that are, are the same.
fn alike(x: u8, y: u8) -> bool
    ensures { result ≡ eqb (upper x) (upper y) }
{
    x == y || raised(x) == raised(y)
}

// The first place from `at` on whose byte is not between low and high.
pub fn run_end(p: &[u8], at: usize, low: u8, high: u8) -> usize
    requires { at ≤ length p.now }
    ensures { (result ≡ at + leading low high (drop at p.now)) × (result ≤ length p.now) }
{
    for i in at..p.len() {
        if !is_between(low, high, p[i]) {
            return i;
        }
    }
    p.len()
}

// Does the command go on at i with the bytes of the pattern from a up to e, whatever their case?
pub fn goes_on(p: &[u8], a: usize, e: usize, c: &[u8], i: usize) -> bool
    requires { (a ≤ e) × (e ≤ length p.now) × (i ≤ length c.now) }
    ensures { result ≡ starts (part a e p.now) (drop i c.now) }
{
    if e - a > c.len() - i {
        return false;
    }
    for k in 0..e - a {
        if !alike(p[a + k], c[i + k]) {
            return false;
        }
    }
    true
}
