// The number that a session's next Data, DataEND or Trigger must carry.
ghost use Rattle.std.specs.Prelude.{ℕ, ◌<◌, true, List, ◌≡◌};
ghost use Rattle.effects.specs.Numbering.{moved_by};
ghost use Rattle.sessions.specs.Synchronous.{with_slot};
ghost use Rattle.model.specs.Exchange.{stepped};
ghost use Rattle.model.specs.Sizes.{session_limit};
ghost use Rattle.state.specs.Change.{on_rest};
ghost use Rattle.state.specs.Tidy.{Tidy};
ghost use Rattle.state.specs.View.{memory, view};

use holding::standing::NUMBERS;
use state::sizes::Words;
use state::tables;
use wire::message_id::MessageId;

// The number expected moves on.
pub fn step_number(w: &mut Words, i: usize)
    requires { i < session_limit }
    ensures { ((s : List ℕ) → view (memory w.new s) ≡ on_rest (view (memory w.old s)) (with_slot i stepped))
        × ((s : List ℕ) → Tidy (memory w.old s) → Tidy (memory w.new s)) }
{
    let expected = tables::exchange(w, i, tables::NUMBER_EXPECTED);
    let behind = MessageId::new((expected % NUMBERS) as u32).next();
    tables::set_exchange(w, i, tables::NUMBER_EXPECTED, behind.number as u64);
}

// A message that is answered Error moves it where it carries it.
pub fn count_refused(w: &mut Words, i: usize, moves: bool)
    requires { moves ≡ true → i < session_limit }
    ensures { ((s : List ℕ) → view (memory w.new s) ≡ on_rest (view (memory w.old s)) (with_slot i (moved_by moves)))
        × ((s : List ℕ) → Tidy (memory w.old s) → Tidy (memory w.new s)) }
{
    if moves {
        step_number(w, i);
    }
}
