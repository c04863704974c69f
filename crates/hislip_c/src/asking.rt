// The questions of a host, which change nothing.
ghost use Rattle.model.specs.Asking.{deadline_answer, size_answer, readings_answer};
ghost use Rattle.questions.specs.Asking.{deadline_numbers, size_numbers, readings_numbers};
ghost use Rattle.state.specs.View.{memory, view};
ghost use Rattle.std.specs.Prelude.{◌≡◌, length};
ghost use Rattle.model.specs.Holders.{holders_answer, list_filled};
ghost use Rattle.questions.specs.Holders.{counted_of, rows_in};

use questions::asking::{Deadline, Size};
use questions::holders::{Counted, Row};
use questions::watched::Readings;
use state::sizes::{Strings, Words};

// Until when a host may sleep: no reading of the clock before the deadline answers anybody.
#[unsafe(no_mangle)]
pub extern "C" fn hislip_deadline(words: &Words, strings: &Strings) -> Deadline
    ensures { deadline_numbers result ≡ deadline_answer (view (memory words.now strings.now)) }
{
    questions::asking::hislip_deadline(words, strings)
}

// How long an answer to a session may be, so that a host can cut a longer one.
#[unsafe(no_mangle)]
pub extern "C" fn hislip_client_size(words: &Words, strings: &Strings, session: u32) -> Size
    ensures { size_numbers result ≡ size_answer (view (memory words.now strings.now)) session }
{
    questions::asking::hislip_client_size(words, strings, session)
}

// Who holds what, since when, in the list that the host lends: ascending by SessionID; further rows are untouched.
#[unsafe(no_mangle)]
pub extern "C" fn hislip_holders(words: &Words, strings: &Strings, rows: &mut [Row]) -> Counted
    ensures { (result ≡ counted_of (holders_answer (view (memory words.now strings.now)) (length rows.old)))
        × (rows.new ≡ list_filled (rows_in (view (memory words.now strings.now))) rows.old) }
{
    questions::holders::hislip_holders(words, strings, rows)
}

// The record of a session's readings.
#[unsafe(no_mangle)]
pub extern "C" fn hislip_readings(words: &Words, strings: &Strings, session: u32) -> Readings
    ensures { readings_numbers result ≡ readings_answer (view (memory words.now strings.now)) session }
{
    questions::watched::hislip_readings(words, strings, session)
}
