// What a host may ask; nothing is changed by it.
ghost use Rattle.model.specs.Asking.{deadline_answer, size_answer};
ghost use Rattle.questions.specs.Asking.{deadline_numbers, size_numbers, size_told};
ghost use Rattle.state.specs.View.{memory, view};
ghost use Rattle.std.specs.Prelude.{List, ℕ, ◌≡◌};

use crate::found::live_slot;
use holding::deadline;
use queue::requests;
use sessions::refusal::Refusal;
use state::sizes::{Strings, Words};
use state::tables;

// How many requests wait, and the earliest deadline (0 if none waits).
// Kept: a number for the refusal, in Size, and 0 for no deadline, in Deadline, since these are structs of the C interface.
#[repr(C)]
#[derive(Clone, Copy)]
pub struct Deadline {
    pub waiting: u64,
    pub deadline: u64,
}

// The refusal (0: none), and the largest answer that the session's client takes.
#[repr(C)]
#[derive(Clone, Copy)]
pub struct Size {
    pub refusal: u64,
    pub size: u64,
}

// A refused question is told no size.
impl From<Result<u64, Refusal>> for Size {
    ghost from_gives = { λ r s. s ≡ size_told r };

    fn from(told: Result<u64, Refusal>) -> Size {
        match told {
            Ok(size) => Size { refusal: 0, size },
            Err(why) => Size {
                refusal: why.number(),
                size: 0,
            },
        }
    }
}

// How long an answer to a session may be.
fn client_size(words: &Words, session: u32) -> Result<u64, Refusal>
    ensures { (s : List ℕ) → size_numbers (size_told result) ≡ size_answer (view (memory words.now s)) session }
{
    let i = live_slot(words, session)?;
    Ok(tables::exchange(words, i, tables::CLIENT_SIZE))
}

// Until when a host may sleep: no reading of the clock before the deadline answers anybody.
pub fn hislip_deadline(words: &Words, strings: &Strings) -> Deadline
    ensures { deadline_numbers result ≡ deadline_answer (view (memory words.now strings.now)) }
{
    let n = requests::waiting_count(words);
    let t = deadline::earliest_deadline(words);
    Deadline {
        waiting: n as u64,
        deadline: t,
    }
}

// How long an answer to a session may be, so that a host can cut a longer one.
pub fn hislip_client_size(words: &Words, strings: &Strings, session: u32) -> Size
    ensures { size_numbers result ≡ size_answer (view (memory words.now strings.now)) session }
{
    Size::from(client_size(words, session))
}
