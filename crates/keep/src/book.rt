// A journal begun, closed and read.
ghost use Rattle.journal.specs.Places.{backward_at, forward_at};
ghost use Rattle.journal.specs.Writer.{close_of, new_of};
ghost use Rattle.keep.specs.Keeping.{Keeps};
ghost use Rattle.std.specs.Prelude.{◌≡◌};

use crate::KeptAlone;
use entries::Writer;
use journal::{Found, reader, writer};

// A new, empty journal, whatever the words were. Of the book nothing is written.
pub fn hislip_journal_new(journal: &mut Writer, book: &[u8]) -> KeptAlone
    ensures { Keeps (new_of journal.old book.now) result.kept journal.new book.now }
{
    KeptAlone::from(writer::new(journal, book))
}

// The closing trailer behind the last entry.
pub fn hislip_journal_close(journal: &mut Writer, book: &mut [u8]) -> KeptAlone
    ensures { Keeps (close_of journal.old book.old) result.kept journal.new book.new }
{
    KeptAlone::from(writer::close(journal, book))
}

// The entry that begins at a place.
// Kept: two functions of one shape, the two names of the C interface.
pub fn hislip_journal_forward(book: &[u8], at: u64) -> Found
    ensures { result ≡ forward_at book.now at }
{
    Found::from(reader::forward(book, at as usize))
}

// The entry that ends at a place of a closed journal.
pub fn hislip_journal_backward(book: &[u8], at: u64) -> Found
    ensures { result ≡ backward_at book.now at }
{
    Found::from(reader::backward(book, at as usize))
}
