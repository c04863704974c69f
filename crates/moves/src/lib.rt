// A part of an entry, moved into the book: sixteen bytes a step, and of what is left eight, four, two, one. What a step moves is read before
// the first byte of it is written, so that the machine moves it by one load and one store. Every byte is written behind those before it.
#![tactic(auto)]

ghost use Rattle.std.specs.Prelude.{◌+◌, ◌*◌, ◌/◌, ◌<◌, ◌≤◌, length, ◌≡◌};
ghost use Rattle.moves.specs.Body.{body_limit};
ghost use Rattle.moves.specs.Moves.{moved};
ghost use Rattle.wire.specs.Splice.{splice};

// A body has at most so many bytes (specs: body_limit).
pub const BODY_LIMIT: usize = 5000;

// A step of N bytes: all are read before the first is written.
// Kept: loops, and no `copy_from_slice` into the book: it promises no order of its stores, and a crash must leave the front of an entry.
fn put_step<const N: usize>(book: &mut [u8], at: usize, src: &[u8], i: usize)
    requires room { at + i + N ≤ length book.old }
    requires there { i + N ≤ length src.now }
    ensures { book.new ≡ moved book.old at src.now i (i + N) }
{
    let mut bytes = [0; N];
    for k in 0..N {
        bytes[k] = src[i + k];
    }
    for j in 0..N {
        book[at + i + j] = bytes[j];
    }
}

// A step of N bytes, if what is left behind the steps of 2 N has so many.
fn put_left<const N: usize>(book: &mut [u8], at: usize, src: &[u8])
    requires some { 0 < N }
    requires few { N ≤ 8 }
    requires room { at + length src.now ≤ length book.old }
    ensures { book.new ≡ moved book.old at src.now (length src.now / (2 * N) * (2 * N)) (length src.now / N * N) }
{
    let n = src.len();
    if n % (2 * N) < N {
        return;
    }
    put_step::<N>(book, at, src, n / (2 * N) * (2 * N));
}

// What is left of a part behind its steps of sixteen.
fn put_rest(book: &mut [u8], at: usize, src: &[u8])
    requires { at + length src.now ≤ length book.old }
    ensures { book.new ≡ moved book.old at src.now (length src.now / 16 * 16) (length src.now) }
{
    put_left::<8>(book, at, src);
    put_left::<4>(book, at, src);
    put_left::<2>(book, at, src);
    put_left::<1>(book, at, src);
}

// No part is longer than a body. With that bound in sight the compiler leaves the loop over the steps as it is; else it does four a turn, and
// most parts have one.
// Kept: the loop by hand. A `for` over the steps was tried: the compiler does eight a turn, with four registers saved and a loop for the rest.
fn put_steps(book: &mut [u8], at: usize, src: &[u8])
    requires { (length src.now ≤ body_limit) × (at + length src.now ≤ length book.old) }
    ensures { book.new ≡ moved book.old at src.now 0 (length src.now / 16 * 16) }
{
    let n = src.len().min(BODY_LIMIT);
    let mut i = 0;
    while n - i >= 16 {
        put_step::<16>(book, at, src, i);
        i += 16;
    }
}

// A part. It is copied into both functions that call it, which the compiler does not do by itself at this size.
#[inline(always)]
pub fn put_part(book: &mut [u8], at: usize, src: &[u8])
    requires { (length src.now ≤ body_limit) × (at + length src.now ≤ length book.old) }
    ensures { book.new ≡ splice book.old at src.now }
{
    put_steps(book, at, src);
    put_rest(book, at, src);
}

// A part that is often empty.
pub fn put_if_any(book: &mut [u8], at: usize, src: &[u8])
    requires { (length src.now ≤ body_limit) × (at + length src.now ≤ length book.old) }
    ensures { book.new ≡ splice book.old at src.now }
{
    if src.is_empty() {
        return;
    }
    put_part(book, at, src);
}
