// RMT-delivered, and what it leaves of message available and of the expectation; whether a message is a command.
ghost use Rattle.std.specs.Prelude.{ℕ, ◌<◌, ◌≤◌, eqb, ◌&&◌, cond, not, List, ◌≡◌};
ghost use Rattle.sessions.specs.Synchronous.{is_command, with_slot};
ghost use Rattle.model.specs.Exchange.{note_rmt};
ghost use Rattle.model.specs.Sizes.{session_limit};
ghost use Rattle.state.specs.Change.{on_rest};
ghost use Rattle.state.specs.Tidy.{Tidy};
ghost use Rattle.state.specs.View.{memory, view};

use state::sizes::Words;
use state::tables;
use wire::types;

// 1 where the two are one number, else 0: a number, so that no branch is made of it.
pub fn same_number(a: u64, b: u64) -> u64
    ensures { (result ≡ cond (eqb a b) 1 0) × (result ≤ 1) }
{
    u64::from(a == b)
}

// The word of message available, or of the expectation, behind a message with this control code.
// Kept: a product and not `&&`, for no processor foresees the code, and so no branch is to be made of it.
pub fn left_by(word: u64, code: u8) -> u64
    ensures { (eqb result 1 ≡ (not (eqb code 1) && eqb word 1)) × (result ≤ 1) }
{
    let available = same_number(word, 1);
    let delivered = same_number(u64::from(code), 1);
    available * (1 - delivered)
}

// RMT-delivered (code 1) turns message available off.
pub fn note_rmt(w: &mut Words, i: usize, code: u8)
    requires { i < session_limit }
    ensures { ((s : List ℕ) → view (memory w.new s) ≡ on_rest (view (memory w.old s)) (with_slot i (note_rmt code)))
        × ((s : List ℕ) → Tidy (memory w.old s) → Tidy (memory w.new s)) }
{
    let available = tables::exchange(w, i, tables::AVAILABLE);
    tables::set_exchange(w, i, tables::AVAILABLE, left_by(available, code));
}

// Is this a Data, DataEND or Trigger?
pub fn is_command(kind: u8) -> bool
    ensures { is_command kind ≡ result }
{
    matches!(kind, types::DATA | types::DATA_END | types::TRIGGER)
}
