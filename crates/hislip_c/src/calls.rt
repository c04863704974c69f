// The calls: what happens is told to the server.
ghost use Rattle.model.specs.Interface.{Event, Event.answer, Event.clock, Event.cut, Event.delivery, Event.opening, Event.setting, Setting.watch};
ghost use Rattle.model.specs.Interface.Reply.{done};
ghost use Rattle.model.specs.Post.{Post};
ghost use Rattle.server.specs.Calls.{Delivered};
ghost use Rattle.server.specs.Events.{Called, Fresh, Replied};
ghost use Rattle.state.specs.Tidy.{Tidy};
ghost use Rattle.state.specs.View.{memory, view};
ghost use Rattle.std.specs.Prelude.{length, eqb, not, [], ◌≡◌};
ghost use Rattle.state.specs.Layout.{STRINGS, WORDS};
ghost use Rattle.readings.specs.Bits.{bits};
ghost use Rattle.readings.specs.Watch.{Limits.above, Limits.off, Limits.outside};
ghost use Rattle.server.specs.Listing.{SetsList};

use server::listing::Listed;
use server::{Answered, Done};
use sessions::Delivery;
use state::sizes::{Strings, Words};

// Unread bytes of a connection are delivered.
#[unsafe(no_mangle)]
pub extern "C" fn hislip_deliver(
    words: &mut Words,
    strings: &mut Strings,
    connection: u32,
    bytes: &[u8],
    out: &mut [u8],
) -> Delivery
    ensures { Delivered (delivery connection bytes.now (length out.old)) result (memory words.old strings.old) (memory words.new strings.new) out.old out.new }
{
    server::hislip_deliver(words, strings, connection, bytes, out)
}

// A connection opens.
#[unsafe(no_mangle)]
pub extern "C" fn hislip_open(words: &mut Words, strings: &mut Strings, connection: u32) -> Done
    ensures { Called (opening connection) result (memory words.old strings.old) (memory words.new strings.new) [] [] }
{
    server::hislip_open(words, strings, connection)
}

// A connection is cut.
#[unsafe(no_mangle)]
pub extern "C" fn hislip_cut(
    words: &mut Words,
    strings: &mut Strings,
    connection: u32,
    out: &mut [u8],
) -> Done
    ensures { Called (cut connection (length out.old)) result (memory words.old strings.old)
        (memory words.new strings.new) out.old out.new }
{
    server::hislip_cut(words, strings, connection, out)
}

// The clock reads so many milliseconds.
#[unsafe(no_mangle)]
pub extern "C" fn hislip_clock(
    words: &mut Words,
    strings: &mut Strings,
    milliseconds: u64,
    out: &mut [u8],
) -> Done
    ensures { Called (clock milliseconds (length out.old)) result (memory words.old strings.old)
        (memory words.new strings.new) out.old out.new }
{
    server::hislip_clock(words, strings, milliseconds, out)
}

// The instrument's status byte changes.
#[unsafe(no_mangle)]
pub extern "C" fn hislip_status(words: &mut Words, strings: &mut Strings, status: u8)
    ensures { Post view (Event.status status) (memory words.old strings.old) (memory words.new strings.new) []
        [] done 0 × (Tidy (memory words.old strings.old) → Tidy (memory words.new strings.new)) }
{
    server::hislip_status(words, strings, status);
}

// A fresh server in the lent memory, which prefers synchronized mode if `overlap` is 0, else overlap mode.
#[unsafe(no_mangle)]
pub extern "C" fn hislip_new(words: &mut Words, strings: &mut Strings, vendor: u16, overlap: u8)
    ensures { Fresh (record { vendor = vendor; prefers_overlap = not (eqb overlap 0) }) (memory words.new strings.new) }
{
    server::hislip_new(words, strings, vendor, overlap);
}

// How many words and bytes to lend.
#[unsafe(no_mangle)]
pub extern "C" fn hislip_words() -> u64
    ensures { result ≡ WORDS }
{
    server::hislip_words()
}

#[unsafe(no_mangle)]
pub extern "C" fn hislip_string_bytes() -> u64
    ensures { result ≡ STRINGS }
{
    server::hislip_string_bytes()
}

// The instrument answers a session, with END unless `end` is 0; `shown` is what is unread of the session's synchronous connection.
#[unsafe(no_mangle)]
pub extern "C" fn hislip_answer(
    words: &mut Words,
    strings: &mut Strings,
    session: u32,
    payload: &[u8],
    end: u8,
    shown: &[u8],
    out: &mut [u8],
) -> Answered
    ensures { Replied (answer session payload.now (not (eqb end 0)) shown.now (length out.old)) result
        (memory words.old strings.old) (memory words.new strings.new) out.old out.new }
{
    server::hislip_answer(words, strings, session, payload, end, shown, out)
}

// No reading trips.
#[unsafe(no_mangle)]
pub extern "C" fn hislip_watch_off(words: &mut Words, strings: &mut Strings, session: u32) -> Done
    ensures { Called (setting (watch session off)) result (memory words.old strings.old) (memory words.new strings.new) [] [] }
{
    server::watches::hislip_watch_off(words, strings, session)
}

// A reading above the limit trips.
#[unsafe(no_mangle)]
pub extern "C" fn hislip_watch_above(
    words: &mut Words,
    strings: &mut Strings,
    session: u32,
    limit: f32,
) -> Done
    ensures { Called (setting (watch session (above (bits limit)))) result (memory words.old strings.old) (memory words.new strings.new) [] [] }
{
    server::watches::hislip_watch_above(words, strings, session, limit)
}

// A reading below the low limit or above the high one trips.
#[unsafe(no_mangle)]
pub extern "C" fn hislip_watch_outside(
    words: &mut Words,
    strings: &mut Strings,
    session: u32,
    low: f32,
    high: f32,
) -> Done
    ensures { Called (setting (watch session (outside (bits low) (bits high)))) result (memory words.old strings.old)
        (memory words.new strings.new) [] [] }
{
    server::watches::hislip_watch_outside(words, strings, session, low, high)
}

// The host sets the list of allowed commands: a text, each pattern ended by a newline, which the last one may lack. No bytes are the empty
// list, which allows nothing.
#[unsafe(no_mangle)]
pub extern "C" fn hislip_patterns(words: &mut Words, strings: &mut Strings, text: &[u8]) -> Listed
    ensures { SetsList text.now result (memory words.old strings.old) (memory words.new strings.new) }
{
    server::listing::hislip_patterns(words, strings, text)
}
