// The calls that keep a journal, and a journal begun, closed and read.
ghost use Rattle.std.specs.Prelude.{eqb, length, not, [], ◌≡◌};
ghost use Rattle.model.specs.Interface.{Event, Event.answer, Event.clock, Event.cut, Event.delivery, Event.opening, Reply, Event.setting, Setting.patterns, Setting.watch};
ghost use Rattle.model.specs.Post.{Post};
ghost use Rattle.server.specs.Calls.{Delivered};
ghost use Rattle.server.specs.Events.{Called, Replied};
ghost use Rattle.state.specs.Tidy.{Tidy};
ghost use Rattle.state.specs.View.{memory, view};
ghost use Rattle.keep.specs.Keeping.{Keeps, keeping, looked, of_answered, of_delivery, of_done, of_listed};
ghost use Rattle.journal.specs.Places.{backward_at, forward_at};
ghost use Rattle.journal.specs.Writer.{close_of, new_of};
ghost use Rattle.server.specs.Listing.{SetsList};
ghost use Rattle.readings.specs.Bits.{bits};
ghost use Rattle.readings.specs.Watch.{Limits.above, Limits.off, Limits.outside};

use entries::Writer;
use journal::Found;
use keep::lists::KeptListed;
use keep::{KeptAlone, KeptAnswered, KeptDelivery, KeptDone};
use state::sizes::{Strings, Words};

// A connection opens.
#[unsafe(no_mangle)]
pub extern "C" fn hislip_keep_open(
    words: &mut Words,
    strings: &mut Strings,
    connection: u32,
    journal: &mut Writer,
    book: &mut [u8],
) -> KeptDone
    ensures { Called (opening connection) (of_done result) (memory words.old strings.old)
        (memory words.new strings.new) [] []
        × Keeps (keeping (view (memory words.old strings.old)) (opening connection) journal.old book.old)
        result.kept journal.new book.new }
{
    keep::hislip_keep_open(words, strings, connection, journal, book)
}

// A connection is cut.
#[unsafe(no_mangle)]
pub extern "C" fn hislip_keep_cut(
    words: &mut Words,
    strings: &mut Strings,
    connection: u32,
    out: &mut [u8],
    journal: &mut Writer,
    book: &mut [u8],
) -> KeptDone
    ensures { Called (cut connection (length out.old)) (of_done result) (memory words.old strings.old)
        (memory words.new strings.new) out.old out.new
        × Keeps (keeping (view (memory words.old strings.old)) (cut connection (length out.old)) journal.old
        book.old) result.kept journal.new book.new }
{
    keep::hislip_keep_cut(words, strings, connection, out, journal, book)
}

// The clock reads so many milliseconds.
#[unsafe(no_mangle)]
pub extern "C" fn hislip_keep_clock(
    words: &mut Words,
    strings: &mut Strings,
    milliseconds: u64,
    out: &mut [u8],
    journal: &mut Writer,
    book: &mut [u8],
) -> KeptDone
    ensures { Called (clock milliseconds (length out.old)) (of_done result) (memory words.old strings.old)
        (memory words.new strings.new) out.old out.new
        × Keeps (keeping (view (memory words.old strings.old)) (clock milliseconds (length out.old)) journal.old
        book.old) result.kept journal.new book.new }
{
    keep::hislip_keep_clock(words, strings, milliseconds, out, journal, book)
}

// The instrument's status byte changes.
#[unsafe(no_mangle)]
pub extern "C" fn hislip_keep_status(
    words: &mut Words,
    strings: &mut Strings,
    status: u8,
    journal: &mut Writer,
    book: &mut [u8],
) -> KeptAlone
    ensures { (Post view (Event.status status) (memory words.old strings.old) (memory words.new strings.new) []
        [] Reply.done 0 × (Tidy (memory words.old strings.old) → Tidy (memory words.new strings.new)))
        × Keeps (keeping (view (memory words.old strings.old)) (Event.status status) journal.old book.old)
        result.kept journal.new book.new }
{
    keep::hislip_keep_status(words, strings, status, journal, book)
}

// Unread bytes of a connection are delivered. With a journal kept no more than the first 1,040 are looked at.
#[unsafe(no_mangle)]
pub extern "C" fn hislip_keep_deliver(
    words: &mut Words,
    strings: &mut Strings,
    connection: u32,
    bytes: &[u8],
    out: &mut [u8],
    journal: &mut Writer,
    book: &mut [u8],
) -> KeptDelivery
    ensures { Delivered (looked (delivery connection bytes.now (length out.old))) (of_delivery result)
        (memory words.old strings.old) (memory words.new strings.new) out.old out.new
        × Keeps (keeping (view (memory words.old strings.old))
        (looked (delivery connection bytes.now (length out.old))) journal.old book.old) result.kept
        journal.new book.new }
{
    keep::hislip_keep_deliver(words, strings, connection, bytes, out, journal, book)
}

// The instrument answers a session, with END unless `end` is 0. Of what is unread of the session's synchronous connection only the first 16
// bytes count.
#[unsafe(no_mangle)]
pub extern "C" fn hislip_keep_answer(
    words: &mut Words,
    strings: &mut Strings,
    session: u32,
    payload: &[u8],
    end: u8,
    shown: &[u8],
    out: &mut [u8],
    journal: &mut Writer,
    book: &mut [u8],
) -> KeptAnswered
    ensures { Replied (looked (answer session payload.now (not (eqb end 0)) shown.now (length out.old))) (of_answered result)
        (memory words.old strings.old) (memory words.new strings.new) out.old out.new
        × Keeps (keeping (view (memory words.old strings.old))
        (looked (answer session payload.now (not (eqb end 0)) shown.now (length out.old))) journal.old
        book.old) result.kept journal.new book.new }
{
    keep::hislip_keep_answer(
        words, strings, session, payload, end, shown, out, journal, book,
    )
}

// A new, empty journal, whatever the words were. Of the book nothing is written.
#[unsafe(no_mangle)]
pub extern "C" fn hislip_journal_new(journal: &mut Writer, book: &[u8]) -> KeptAlone
    ensures { Keeps (new_of journal.old book.now) result.kept journal.new book.now }
{
    keep::book::hislip_journal_new(journal, book)
}

// The closing trailer behind the last entry.
#[unsafe(no_mangle)]
pub extern "C" fn hislip_journal_close(journal: &mut Writer, book: &mut [u8]) -> KeptAlone
    ensures { Keeps (close_of journal.old book.old) result.kept journal.new book.new }
{
    keep::book::hislip_journal_close(journal, book)
}

// The entry that begins at a place.
#[unsafe(no_mangle)]
pub extern "C" fn hislip_journal_forward(book: &[u8], at: u64) -> Found
    ensures { result ≡ forward_at book.now at }
{
    keep::book::hislip_journal_forward(book, at)
}

// The entry that ends at a place of a closed journal.
#[unsafe(no_mangle)]
pub extern "C" fn hislip_journal_backward(book: &[u8], at: u64) -> Found
    ensures { result ≡ backward_at book.now at }
{
    keep::book::hislip_journal_backward(book, at)
}

// The host sets the list of allowed commands.
#[unsafe(no_mangle)]
pub extern "C" fn hislip_keep_patterns(
    words: &mut Words,
    strings: &mut Strings,
    text: &[u8],
    journal: &mut Writer,
    book: &mut [u8],
) -> KeptListed
    ensures { SetsList text.now (of_listed result) (memory words.old strings.old)
        (memory words.new strings.new) × Keeps
        (keeping (view (memory words.old strings.old)) (setting (patterns text.now)) journal.old
        book.old) result.kept journal.new book.new }
{
    keep::lists::hislip_keep_patterns(words, strings, text, journal, book)
}

// No reading trips.
#[unsafe(no_mangle)]
pub extern "C" fn hislip_keep_watch_off(
    words: &mut Words,
    strings: &mut Strings,
    session: u32,
    journal: &mut Writer,
    book: &mut [u8],
) -> KeptDone
    ensures { Called (setting (watch session off)) (of_done result) (memory words.old strings.old)
        (memory words.new strings.new) [] []
        × Keeps (keeping (view (memory words.old strings.old)) (setting (watch session off)) journal.old book.old)
        result.kept journal.new book.new }
{
    keep::watches::hislip_keep_watch_off(words, strings, session, journal, book)
}

// A reading above the limit trips.
#[unsafe(no_mangle)]
pub extern "C" fn hislip_keep_watch_above(
    words: &mut Words,
    strings: &mut Strings,
    session: u32,
    limit: f32,
    journal: &mut Writer,
    book: &mut [u8],
) -> KeptDone
    ensures { Called (setting (watch session (above (bits limit)))) (of_done result) (memory words.old strings.old)
        (memory words.new strings.new) [] []
        × Keeps (keeping (view (memory words.old strings.old)) (setting (watch session (above (bits limit)))) journal.old
        book.old) result.kept journal.new book.new }
{
    keep::watches::hislip_keep_watch_above(words, strings, session, limit, journal, book)
}

// A reading below the low limit or above the high one trips.
#[unsafe(no_mangle)]
pub extern "C" fn hislip_keep_watch_outside(
    words: &mut Words,
    strings: &mut Strings,
    session: u32,
    low: f32,
    high: f32,
    journal: &mut Writer,
    book: &mut [u8],
) -> KeptDone
    ensures { Called (setting (watch session (outside (bits low) (bits high)))) (of_done result) (memory words.old strings.old)
        (memory words.new strings.new) [] []
        × Keeps (keeping (view (memory words.old strings.old)) (setting (watch session (outside (bits low) (bits high))))
        journal.old book.old) result.kept journal.new book.new }
{
    keep::watches::hislip_keep_watch_outside(words, strings, session, low, high, journal, book)
}
