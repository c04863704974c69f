// Readings under watch: what a host may ask of them.
ghost use Rattle.model.specs.Asking.{no_readings, readings_answer};
ghost use Rattle.questions.specs.Asking.{readings_numbers};
ghost use Rattle.state.specs.View.{memory, view};
ghost use Rattle.std.specs.Prelude.{◌≡◌};

use crate::NO_SUCH_SESSION;
use sensing::sense;
use state::sizes::{SESSION_LIMIT, Strings, Words};
use state::{search, tables};

// Kept: numbers for a refusal and a flag, since `hislip_readings` of the C interface answers with this struct.
// The refusal (0: none), 1 if a numeric reading was sent to the session, and then the last, the lowest and the highest.
#[repr(C)]
#[derive(Clone, Copy)]
pub struct Readings {
    pub refusal: u64,
    pub seen: u64,
    pub last: f32,
    pub lowest: f32,
    pub highest: f32,
}

fn no_readings(refusal: u64) -> Readings
    ensures { readings_numbers result ≡ no_readings refusal }
{
    Readings {
        refusal,
        seen: 0,
        last: 0.0,
        lowest: 0.0,
        highest: 0.0,
    }
}

// The record of a session's readings.
pub fn hislip_readings(words: &Words, strings: &Strings, session: u32) -> Readings
    ensures { readings_numbers result ≡ readings_answer (view (memory words.now strings.now)) session }
{
    let i = search::slot_of_number(words, session as u64);
    if i >= SESSION_LIMIT || tables::entry(words, i, tables::NUMBER) == 0 {
        return no_readings(NO_SUCH_SESSION);
    }
    let told = sense::record_at(words, i);
    if !told.seen {
        return no_readings(0);
    }
    Readings {
        refusal: 0,
        seen: 1,
        last: told.last,
        lowest: told.lowest,
        highest: told.highest,
    }
}
