// The entry of an event that a call keeps: how its body begins, and the body's parts written, unless the event was refused.
#![tactic(auto)]

ghost use Rattle.std.specs.Prelude.{◌+◌, ◌≤◌, length, ◌++◌, ◌≡◌};
ghost use Rattle.entries.specs.Entries.{entry_unless};
ghost use Rattle.journal.specs.Journal.{body_limit};
ghost use Rattle.journal.specs.Numbered.{numbered};
ghost use Rattle.journal.specs.Writer.{Met};

pub mod heads;

use journal::{Unwritten, writer};

// The writer's own four words, lent.
pub type Writer = [u64; 4];

// The entry of an event, its body in four parts, unless the event was refused. Every kept call ends with this.
// Kept: the refusal is the number that the plain call answers to C (0: none), and is only passed on.
#[inline(always)]
pub fn keep_entry(
    journal: &mut Writer,
    book: &mut [u8],
    refusal: u64,
    a: &[u8],
    b: &[u8],
    c: &[u8],
    d: &[u8],
) -> Result<(), Unwritten>
    requires { refusal ≡ 0 → length a.now + length b.now + length c.now + length d.now ≤ body_limit }
    ensures { Met (entry_unless refusal journal.old book.old
        (a.now ++ b.now ++ c.now ++ d.now)) result journal.new book.new }
{
    let refused = refusal != 0;
    if refused {
        return Ok(());
    }
    writer::append(journal, book, a, b, c, d)
}

// The same of a delivery, whose head goes straight to the book: most events are deliveries.
pub fn keep_delivery(
    journal: &mut Writer,
    book: &mut [u8],
    refusal: u64,
    connection: u64,
    shown: &[u8],
    frames: &[u8],
) -> Result<(), Unwritten>
    requires { refusal ≡ 0 → 9 + length shown.now + length frames.now ≤ body_limit }
    ensures { Met (entry_unless refusal journal.old book.old
        (numbered 1 connection (length shown.now) ++ shown.now ++ frames.now)) result journal.new book.new }
{
    let accepted = refusal == 0;
    if !accepted {
        return Ok(());
    }
    let tag = u8::from(heads::Tag::Delivery);
    let n = shown.len() as u64;
    writer::append_numbered(journal, book, tag, connection, n, shown, frames)
}

// The same of an event of numbers alone.
#[inline(always)]
pub fn keep_numbers(
    journal: &mut Writer,
    book: &mut [u8],
    refusal: u64,
    head: &[u8],
    frames: &[u8],
) -> Result<(), Unwritten>
    requires { refusal ≡ 0 → length head.now + length frames.now ≤ body_limit }
    ensures { Met (entry_unless refusal journal.old book.old (head.now ++ frames.now)) result journal.new book.new }
{
    keep_entry(journal, book, refusal, head, &[], &[], frames)
}
