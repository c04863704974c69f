// Readings under watch: what a host may set, one function for each case of a watch.
ghost use Rattle.model.specs.Interface.{Event.setting, Setting.watch};
ghost use Rattle.readings.specs.Bits.{bits};
ghost use Rattle.readings.specs.Watch.{Limits.above, Limits.off, Limits.outside, limits};
ghost use Rattle.server.specs.Events.{Called, done_told};
ghost use Rattle.state.specs.View.{memory, view};
ghost use Rattle.std.specs.Prelude.{[], ◌≡◌};

use crate::Done;
use questions::found::live_slot;
use readings::Watch;
use readings::watching::is_refused;
use sensing::sense;
use sessions::refusal::Refusal;
use state::sizes::{Strings, Words};

// A watch is set for a session; it has not tripped.
fn set_watch(
    words: &mut Words,
    strings: &mut Strings,
    session: u32,
    new: Watch,
) -> Result<usize, Refusal>
    ensures { Called (setting (watch session (limits new))) (done_told result) (memory words.old strings.old) (memory words.new strings.new) [] [] }
{
    let i = live_slot(words, session)?;
    if is_refused(new) {
        return Err(Refusal::BadLimits);
    }
    sense::arm(words, i, new);
    Ok(0)
}

// No reading trips.
pub fn hislip_watch_off(words: &mut Words, strings: &mut Strings, session: u32) -> Done
    ensures { Called (setting (watch session off)) result (memory words.old strings.old) (memory words.new strings.new) [] [] }
{
    Done::from(set_watch(words, strings, session, Watch::Off))
}

// A reading above the limit trips.
pub fn hislip_watch_above(
    words: &mut Words,
    strings: &mut Strings,
    session: u32,
    limit: f32,
) -> Done
    ensures { Called (setting (watch session (above (bits limit)))) result (memory words.old strings.old) (memory words.new strings.new) [] [] }
{
    Done::from(set_watch(words, strings, session, Watch::Above(limit)))
}

// A reading below the low limit or above the high one trips.
pub fn hislip_watch_outside(
    words: &mut Words,
    strings: &mut Strings,
    session: u32,
    low: f32,
    high: f32,
) -> Done
    ensures { Called (setting (watch session (outside (bits low) (bits high)))) result (memory words.old strings.old)
        (memory words.new strings.new) [] [] }
{
    Done::from(set_watch(words, strings, session, Watch::Outside(low, high)))
}
