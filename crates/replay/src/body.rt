// An entry's body: its event is done, and what it gives compared with the frames beside it.
ghost use Rattle.std.specs.Prelude.{length, ◌≡◌};
ghost use Rattle.model.specs.Sizes.{output_minimum};
ghost use Rattle.replay.specs.Replays.{Judges};
ghost use Rattle.state.specs.View.{memory};

use crate::events;
use record::body;
use record::events::Event;
use state::sizes::{Strings, Words};
use verifier::Fault;

// A fault is one of layout or of parcels.
pub fn replay(
    words: &mut Words,
    strings: &mut Strings,
    out: &mut [u8],
    bytes: &[u8],
) -> Result<(), Fault>
    requires { length out.old ≡ output_minimum }
    ensures { Judges result (memory words.old strings.old) (memory words.new strings.new) bytes.now }
{
    let Some((event, frames)) = body::read(bytes) else {
        return Err(Fault::Layout);
    };
    match event {
        Event::Opening { connection } => events::opens(words, strings, connection, frames),
        Event::Delivery { connection, bytes } => {
            events::delivers(words, strings, out, connection, bytes, frames)
        }
        Event::Cut { connection } => events::cuts(words, strings, out, connection, frames),
        Event::Clock { milliseconds } => {
            events::reads_clock(words, strings, out, milliseconds, frames)
        }
        Event::Answer {
            session,
            end,
            payload,
            shown,
        } => { events::answers(words, strings, out, session, end, payload, shown, frames) }
        Event::Status { byte } => events::sets_status(words, strings, byte, frames),
        Event::WatchOff { session } => events::sets_off(words, strings, session, frames),
        Event::WatchAbove { session, limit } => {
            events::sets_above(words, strings, session, limit, frames)
        }
        Event::WatchOutside { session, low, high } => {
            events::sets_outside(words, strings, session, low, high, frames)
        }
        Event::Patterns { text } => events::sets_list(words, strings, text, frames),
    }
}
