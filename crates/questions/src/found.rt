// The session that a question names.
ghost use Rattle.questions.specs.Found.{Finds};
ghost use Rattle.state.specs.View.{locks_of};
ghost use Rattle.std.specs.Prelude.{List, ℕ};

use sessions::refusal::Refusal;
use state::sizes::{SESSION_LIMIT, Words};
use state::{search, tables};

// The slot of the live session with a number.
pub fn live_slot(w: &Words, session: u32) -> Result<usize, Refusal>
    ensures { (s : List ℕ) → Finds (locks_of w.now s).entries session result }
{
    let i = search::slot_of_number(w, session as u64);
    if i >= SESSION_LIMIT {
        return Err(Refusal::NoSuchSession);
    }
    if tables::entry(w, i, tables::NUMBER) == 0 {
        return Err(Refusal::NoSuchSession);
    }
    Ok(i)
}
