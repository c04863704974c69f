// The journal: entries in a lent slice, the book, each with a trailer that points back; its writer and its two readers.
#![tactic(auto)]

ghost use Rattle.journal.specs.Places.{found_of};
ghost use Rattle.journal.specs.Writer.{kept_number};
ghost use Rattle.std.specs.Prelude.{◌≡◌};

pub mod reader;
pub mod writer;

// Why a call of the writer wrote nothing, with its number at the C interface.
#[derive(Clone, Copy, Debug, PartialEq, Eq)]
pub enum Unwritten {
    NoRoom = 1,
    Closed = 2,
}

// What became of an entry, as the C interface has it: 0 if it was written.
// Kept: a function and no From: it is a field of the C structs, and neither u64 nor Result is a type of this crate, so that no impl may stand here.
pub fn kept_number(told: Result<(), Unwritten>) -> u64
    ensures { result ≡ kept_number told }
{
    match told {
        Ok(()) => 0,
        Err(why) => why as u64,
    }
}

// A whole entry of a book: the offset and the length of its body, and the place where the reader goes on.
#[derive(Clone, Copy, Debug, PartialEq, Eq)]
pub struct EntryAt {
    pub body: usize,
    pub len: usize,
    pub next: usize,
}

// An entry, or none, as the C interface has it: `found` is 0 where there is none, and then all else is 0.
// Kept: a flag with the values beside it, since this is the struct of hislip_journal_forward and hislip_journal_backward in the C interface.
#[repr(C)]
#[derive(Clone, Copy)]
pub struct Found {
    pub found: u64,
    pub body: usize,
    pub len: usize,
    pub next: usize,
}

impl From<Option<EntryAt>> for Found {
    ghost from_gives = { λ entry found. found ≡ found_of entry };

    fn from(entry: Option<EntryAt>) -> Found {
        match entry {
            Some(EntryAt { body, len, next }) => Found {
                found: 1,
                body,
                len,
                next,
            },
            None => Found {
                found: 0,
                body: 0,
                len: 0,
                next: 0,
            },
        }
    }
}
