// The writer, over a lent book and four lent words: how many bytes are written, the offset of the last entry, the number of entries,
// and 0 while the journal is open. Any bits may stand in the words.
ghost use Rattle.std.specs.Prelude.{◌≡◌, ◌+◌, ◌-◌, ◌<◌, ◌≤◌, min, [], ◌∷◌, ◌++◌, length, take, drop, ◌==◌, nat_le, List, ℕ};
ghost use Rattle.journal.specs.Journal.{body_limit, closing, entry, reach};
ghost use Rattle.journal.specs.Writer.{Met, append_of, close_of, new_of, place, placed, shut};
ghost use Rattle.crc.specs.Crc.{crc_of};
ghost use Rattle.journal.specs.Numbered.{numbered};
ghost use Rattle.wire.specs.Field.{field};
ghost use Rattle.wire.specs.Splice.{splice};

use crate::{Unwritten, reader};
use wire::{frame, number};

fn is_open(words: &[u64; 4]) -> bool
    ensures { result ≡ (shut words.now == 0) }
{
    words[3] == 0
}

// Do n bytes and a closing trailer fit behind a place?
fn fits(len: usize, at: u64, n: usize) -> bool
    requires { n ≤ 65536 }
    ensures { result ≡ nat_le (n + 12) (min len reach - at) }
{
    let m = reader::room(len) as u64;
    at <= m && n as u64 + 12 <= m - at
}

// The body of an entry: how long it is, and that it is written into the book part behind part.
trait Body {
    ghost bytes: { Self → List ℕ };

    fn size(&self) -> usize
        requires { length (bytes self.now) ≤ body_limit }
        ensures { result ≡ length (bytes self.now) };

    fn put(&self, book: &mut [u8], at: usize)
        requires { (length (bytes self.now) ≤ body_limit) × (at + length (bytes self.now) ≤ length book.old) }
        ensures { book.new ≡ splice book.old at (bytes self.now) };
}

// Four parts in a row.
#[derive(Clone, Copy)]
struct Parts<'a> {
    a: &'a [u8],
    b: &'a [u8],
    c: &'a [u8],
    d: &'a [u8],
}

impl Body for Parts<'_> {
    ghost bytes = { λ p. p.a.now ++ p.b.now ++ p.c.now ++ p.d.now };

    fn size(&self) -> usize {
        self.a.len() + self.b.len() + self.c.len() + self.d.len()
    }

    fn put(&self, book: &mut [u8], at: usize) {
        frame::put_bytes(book, at, self.a);
        frame::put_bytes(book, at + self.a.len(), self.b);
        frame::put_bytes(book, at + self.a.len() + self.b.len(), self.c);
        frame::put_bytes(
            book,
            at + self.a.len() + self.b.len() + self.c.len(),
            self.d,
        );
    }
}

fn put_byte(book: &mut [u8], at: usize, b: u8)
    requires { at + 1 ≤ length book.old }
    ensures { book.new ≡ splice book.old at (b ∷ []) }
{
    book[at] = b;
}

// How such a body begins: the tag and the numbers.
fn put_head(book: &mut [u8], at: usize, tag: u8, x: u64, y: u64)
    requires { at + 9 ≤ length book.old }
    ensures { book.new ≡ splice book.old at (numbered tag x y) }
{
    put_byte(book, at, tag);
    number::put::<4>(book, at + 1, x);
    number::put::<4>(book, at + 5, y);
}

// A tag, two numbers of 4 bytes and two parts.
#[derive(Clone, Copy)]
struct Numbered<'a> {
    tag: u8,
    x: u64,
    y: u64,
    b: &'a [u8],
    c: &'a [u8],
}

impl Body for Numbered<'_> {
    ghost bytes = { λ p. numbered p.tag p.x p.y ++ p.b.now ++ p.c.now };

    fn size(&self) -> usize {
        9 + self.b.len() + self.c.len()
    }

    fn put(&self, book: &mut [u8], at: usize) {
        put_head(book, at, self.tag, self.x, self.y);
        moves::put_part(book, at + 9, self.b);
        moves::put_if_any(book, at + 9 + self.b.len(), self.c);
    }
}

// The sum over a part of the book.
fn sum_of(book: &[u8], at: usize, e: usize) -> u32
    requires { (at ≤ e) × (e ≤ length book.now) }
    ensures { result ≡ crc_of (take (e - at) (drop at book.now)) }
{
    crc::crc32(&book[at..e])
}

// A whole entry. Every byte is written behind those before it. It is compiled into each call that keeps an entry, with all that calls it here and
// in `entries`: the length of an event's head, and that a part is empty, are constants there, and a short entry takes a quarter to a half fewer instructions.
#[inline(always)]
fn put_entry<B: Body>(book: &mut [u8], at: usize, body: &B)
    requires { (length (B.bytes body.now) ≤ body_limit) × (at + 12 + length (B.bytes body.now) ≤ length book.old) }
    ensures { book.new ≡ splice book.old at (entry (B.bytes body.now)) }
{
    let n = body.size();
    number::put::<4>(book, at, n as u64);
    body.put(book, at + 4);
    let sum = sum_of(book, at, at + (n + 4));
    number::put::<4>(book, at + (n + 4), n as u64 + 4);
    number::put::<4>(book, at + (n + 8), sum as u64);
}

fn put_closing(book: &mut [u8], at: usize, last: u64, count: u64)
    requires { at + 12 ≤ length book.old }
    ensures { book.new ≡ splice book.old at (closing last count) }
{
    number::put::<4>(book, at, reader::MARK);
    number::put::<4>(book, at + 4, last);
    number::put::<4>(book, at + 8, count);
}

// Where n bytes go, if the journal is open and they fit.
fn place_for(words: &[u64; 4], len: usize, n: usize) -> Result<u64, Unwritten>
    requires { n ≤ 65536 }
    ensures { result ≡ placed words.now n (min len reach - place words.now) }
{
    if !is_open(words) {
        return Err(Unwritten::Closed);
    }
    if !fits(len, words[0], n) {
        return Err(Unwritten::NoRoom);
    }
    Ok(words[0])
}

// A new, empty journal, whatever the words were.
pub fn new(words: &mut [u64; 4], book: &[u8]) -> Result<(), Unwritten>
    ensures { Met (new_of words.old book.now) result words.new book.now }
{
    if !fits(book.len(), 0, 0) {
        return Err(Unwritten::NoRoom);
    }
    *words = [0, 0, 0, 0];
    Ok(())
}

// An entry behind the last.
#[inline(always)]
fn write_entry<B: Body>(words: &mut [u64; 4], book: &mut [u8], body: &B) -> Result<(), Unwritten>
    requires { length (B.bytes body.now) ≤ body_limit }
    ensures { Met (append_of words.old book.old (B.bytes body.now)) result words.new book.new }
{
    let n = body.size() + 12;
    let at = place_for(words, book.len(), n)?;
    put_entry(book, at as usize, body);
    let [_, _, count, _] = *words;
    *words = [at + n as u64, at, count.wrapping_add(1), 0];
    Ok(())
}

// An entry whose body is four parts in a row, so that nobody has to put them together first.
#[inline(always)]
pub fn append(
    words: &mut [u64; 4],
    book: &mut [u8],
    a: &[u8],
    b: &[u8],
    c: &[u8],
    d: &[u8],
) -> Result<(), Unwritten>
    requires { length a.now + length b.now + length c.now + length d.now ≤ body_limit }
    ensures { Met (append_of words.old book.old (a.now ++ b.now ++ c.now ++ d.now)) result words.new book.new }
{
    write_entry(words, book, &Parts { a, b, c, d })
}

// An entry whose body is a tag, two numbers of 4 bytes and two parts, as a delivery's: its head goes straight to the book, since most events
// are deliveries, and a head put together elsewhere first would be copied once more.
pub fn append_numbered(
    words: &mut [u64; 4],
    book: &mut [u8],
    tag: u8,
    x: u64,
    y: u64,
    b: &[u8],
    c: &[u8],
) -> Result<(), Unwritten>
    requires { 9 + length b.now + length c.now ≤ body_limit }
    ensures { Met (append_of words.old book.old (numbered tag x y ++ b.now ++ c.now)) result words.new book.new }
{
    write_entry(words, book, &Numbered { tag, x, y, b, c })
}

// The closing trailer behind the last entry.
pub fn close(words: &mut [u64; 4], book: &mut [u8]) -> Result<(), Unwritten>
    ensures { Met (close_of words.old book.old) result words.new book.new }
{
    let at = place_for(words, book.len(), 0)?;
    let [_, last, count, _] = *words;
    put_closing(book, at as usize, last, count);
    *words = [at + 12, last, count, 1];
    Ok(())
}
