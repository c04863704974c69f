// The two modes. A server prefers one, and each session is in one; in overlap mode its answers carry the count of its answers.
ghost use Rattle.std.specs.Prelude.{ℕ, ◌<◌, ◌&&◌, cond, false, not, List, ◌≡◌};
ghost use Rattle.sessions.specs.Mode.{counted};
ghost use Rattle.sessions.specs.Synchronous.{with_slot};
ghost use Rattle.model.specs.Exchange.{may_answer, with_count};
ghost use Rattle.model.specs.Sizes.{session_limit};
ghost use Rattle.model.specs.State.{at, exchange_at, half_open};
ghost use Rattle.state.specs.Change.{on_exchange, on_rest};
ghost use Rattle.state.specs.Tidy.{Tidy};
ghost use Rattle.state.specs.View.{locks_of, memory, rest_of, view};
ghost use Rattle.wire.specs.MessageId.{start};

use holding::standing::NUMBERS;
use state::fresh::START;
use state::sizes::{NO_CONNECTION, Words};
use state::tables;
use wire::message_id::MessageId;

// The mode that the host prefers, as a control code: 1 is overlap.
pub fn preference(w: &Words) -> u8
    ensures { cond (rest_of w.now).made.prefers_overlap 1 0 ≡ result }
{
    u8::from(tables::single(w, tables::PREFERENCE) == 1)
}

// Is the session of slot i in overlap mode?
pub fn is_overlap(w: &Words, i: usize) -> bool
    requires { i < session_limit }
    ensures { (exchange_at (rest_of w.now) i).overlap ≡ result }
{
    tables::exchange(w, i, tables::OVERLAP) == 1
}

// The number of slot i's next answer in overlap mode.
pub fn count_of(w: &Words, i: usize) -> MessageId
    requires { i < session_limit }
    ensures { (exchange_at (rest_of w.now) i).count ≡ result.number }
{
    MessageId::new((tables::exchange(w, i, tables::ANSWER_COUNT) % NUMBERS) as u32)
}

// The count begins anew, and no answer was sent.
pub fn reset_count(w: &mut Words, i: usize)
    requires { i < session_limit }
    ensures { ((s : List ℕ) → view (memory w.new s) ≡ on_exchange (view (memory w.old s)) i (with_count start false))
        × ((s : List ℕ) → Tidy (memory w.old s) → Tidy (memory w.new s)) }
{
    tables::set_exchange(w, i, tables::ANSWER_COUNT, START);
    tables::set_exchange(w, i, tables::ANY_SENT, 0);
}

// An answer is counted.
pub fn count_answer(w: &mut Words, i: usize)
    requires { i < session_limit }
    ensures { ((s : List ℕ) → view (memory w.new s) ≡ on_rest (view (memory w.old s)) (with_slot i counted))
        × ((s : List ℕ) → Tidy (memory w.old s) → Tidy (memory w.new s)) }
{
    let id = count_of(w, i).next();
    tables::set_exchange(w, i, tables::ANSWER_COUNT, id.number as u64);
    tables::set_exchange(w, i, tables::ANY_SENT, 1);
}

// May slot i be answered in overlap mode? Not while it is half-open or in a device clear.
fn may_overlap(w: &Words, i: usize) -> bool
    requires { i < session_limit }
    ensures { (s : List ℕ) → (not (half_open (at (locks_of w.now s).entries i)) && not (exchange_at (rest_of w.now) i).in_clear) ≡ result }
{
    if tables::exchange(w, i, tables::IN_CLEAR) == 1 {
        return false;
    }
    tables::entry(w, i, tables::NUMBER) == 0
        || tables::entry(w, i, tables::ASYNCHRONOUS) % 256 != NO_CONNECTION
}

// May slot i be answered? In synchronized mode if it has asked something.
pub fn may_answer(w: &Words, i: usize) -> bool
    requires { i < session_limit }
    ensures { (s : List ℕ) → may_answer (at (locks_of w.now s).entries i) (exchange_at (rest_of w.now) i) ≡ result }
{
    if is_overlap(w, i) {
        may_overlap(w, i)
    } else {
        tables::exchange(w, i, tables::ASKED) != 0
    }
}
