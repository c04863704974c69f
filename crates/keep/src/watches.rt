// Setting a watch, kept.
ghost use Rattle.model.specs.Interface.{Event.setting, Setting.watch};
ghost use Rattle.readings.specs.Bits.{bits};
ghost use Rattle.readings.specs.Watch.{Limits.above, Limits.off, Limits.outside};
ghost use Rattle.server.specs.Events.{Called};
ghost use Rattle.state.specs.View.{memory, view};
ghost use Rattle.keep.specs.Keeping.{Keeps, keeping, of_done};
ghost use Rattle.std.specs.Prelude.{[]};

use crate::KeptDone;
use entries::heads::{self, Tag};
use entries::{Writer, keep_numbers};
use sensing::floats;
use server::watches;
use state::sizes::{Strings, Words};

// No reading trips.
pub fn hislip_keep_watch_off(
    words: &mut Words,
    strings: &mut Strings,
    session: u32,
    journal: &mut Writer,
    book: &mut [u8],
) -> KeptDone
    ensures { Called (setting (watch session off)) (of_done result) (memory words.old strings.old)
        (memory words.new strings.new) [] []
        × Keeps (keeping (view (memory words.old strings.old)) (setting (watch session off)) journal.old book.old)
        result.kept journal.new book.new }
{
    let r = watches::hislip_watch_off(words, strings, session);
    let head = heads::one(Tag::WatchOff, session as u64);
    let told = keep_numbers(journal, book, r.refusal, &head, &[]);
    KeptDone::from((r, told))
}

// A reading above the limit trips.
pub fn hislip_keep_watch_above(
    words: &mut Words,
    strings: &mut Strings,
    session: u32,
    limit: f32,
    journal: &mut Writer,
    book: &mut [u8],
) -> KeptDone
    ensures { Called (setting (watch session (above (bits limit)))) (of_done result) (memory words.old strings.old)
        (memory words.new strings.new) [] []
        × Keeps (keeping (view (memory words.old strings.old)) (setting (watch session (above (bits limit)))) journal.old
        book.old) result.kept journal.new book.new }
{
    let r = watches::hislip_watch_above(words, strings, session, limit);
    let x = floats::bits_of(limit);
    let head = heads::two(Tag::WatchAbove, session as u64, x);
    let told = keep_numbers(journal, book, r.refusal, &head, &[]);
    KeptDone::from((r, told))
}

// A reading below the low limit or above the high one trips.
pub fn hislip_keep_watch_outside(
    words: &mut Words,
    strings: &mut Strings,
    session: u32,
    low: f32,
    high: f32,
    journal: &mut Writer,
    book: &mut [u8],
) -> KeptDone
    ensures { Called (setting (watch session (outside (bits low) (bits high)))) (of_done result) (memory words.old strings.old)
        (memory words.new strings.new) [] []
        × Keeps (keeping (view (memory words.old strings.old)) (setting (watch session (outside (bits low) (bits high))))
        journal.old book.old) result.kept journal.new book.new }
{
    let r = watches::hislip_watch_outside(words, strings, session, low, high);
    let x = floats::bits_of(low);
    let y = floats::bits_of(high);
    let head = heads::triple(Tag::WatchOutside, session as u64, x, y);
    let told = keep_numbers(journal, book, r.refusal, &head, &[]);
    KeptDone::from((r, told))
}
