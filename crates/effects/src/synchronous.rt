// Messages that act on the synchronous channel: Data, DataEND, Trigger, DeviceClearComplete.
ghost use Rattle.std.specs.Prelude.{ℕ, ◌+◌, ◌<◌, ◌≤◌, eqb, length, false, true, List, ◌≡◌};
ghost use Rattle.sessions.specs.Did.{Did};
ghost use Rattle.effects.specs.Interrupted.{Turned};
ghost use Rattle.sessions.specs.Synchronous.{command_notes, is_command, with_slot};
ghost use Rattle.model.specs.Acts.{acts};
ghost use Rattle.model.specs.Exchange.{ask, differs, leave_clear};
ghost use Rattle.model.specs.Locks.{stands};
ghost use Rattle.model.specs.Place.{Role.r_synchronous};
ghost use Rattle.model.specs.State.{at, exchange_at};
ghost use Rattle.model.specs.Step.{finish};
ghost use Rattle.state.specs.Change.{on_rest};
ghost use Rattle.state.specs.Tidy.{Tidy};
ghost use Rattle.state.specs.View.{locks_of, memory, rest_of, view};
ghost use Rattle.model.specs.Sizes.{connection_limit, output_minimum, payload_limit, session_limit};

use crate::numbering::step_number;
use exchanges::interrupted::{in_turn, out_of_turn};
pub use exchanges::rmt::is_command;
use exchanges::rmt::note_rmt;
use locks::complete;
use sessions::{Delivery, answer};
use state::sizes::{Strings, Words};
use state::tables;
use wire::message_id::MessageId;
use wire::{frame, types};

// What is asked is this message. The word kept is its number plus 1; 0 is nothing asked.
fn note_asked(w: &mut Words, i: usize, code: u8, id: MessageId)
    requires { i < session_limit }
    ensures { ((s : List ℕ) → view (memory w.new s) ≡ on_rest (view (memory w.old s)) (with_slot i (ask code id.number)))
        × ((s : List ℕ) → Tidy (memory w.old s) → Tidy (memory w.new s)) }
{
    tables::set_exchange(w, i, tables::ASKED, id.number as u64 + 1);
    note_rmt(w, i, code);
}

// The device clear ends, and the session is in the mode that bit 0 of the code asks for.
fn leave_clear(w: &mut Words, i: usize, code: u8)
    requires { i < session_limit }
    ensures { ((s : List ℕ) → view (memory w.new s) ≡ on_rest (view (memory w.old s)) (with_slot i (leave_clear code)))
        × ((s : List ℕ) → Tidy (memory w.old s) → Tidy (memory w.new s)) }
{
    tables::set_exchange(w, i, tables::IN_CLEAR, 0);
    tables::set_exchange(w, i, tables::OVERLAP, (code % 2) as u64);
}

// What a Data notes, and what a DataEND or Trigger does.
fn note_command(w: &mut Words, i: usize, kind: u8, code: u8, param: u32)
    requires { i < session_limit }
    ensures { ((s : List ℕ) → view (memory w.new s) ≡ on_rest (view (memory w.old s)) (with_slot i (command_notes kind code param)))
        × ((s : List ℕ) → Tidy (memory w.old s) → Tidy (memory w.new s)) }
{
    if kind == types::DATA {
        note_rmt(w, i, code);
        return;
    }
    note_asked(w, i, code, MessageId::new(param));
}

// A command in turn, just before it acts: the expectation is cleared, what it says is noted, and the number expected moves.
fn note_in_turn(w: &mut Words, i: usize, kind: u8, code: u8, param: u32)
    requires { (i < session_limit) × (differs (eqb code 1) (exchange_at (rest_of w.old) i).rmt_expected ≡ false) }
    ensures { ((s out : List ℕ) → Turned (view (memory w.old s)) i kind code param (view (memory w.new s)) out out 0)
        × ((s : List ℕ) → Tidy (memory w.old s) → Tidy (memory w.new s)) }
{
    tables::set_exchange(w, i, tables::RMT_EXPECTED, 0);
    note_command(w, i, kind, code, param);
    step_number(w, i);
}

// The same out of turn: first it interrupts; how many bytes of the output say so. This has two callers, so that it is a call of its own and
// the way of what is in turn stays small.
fn note_out_of_turn(
    w: &mut Words,
    out: &mut [u8],
    i: usize,
    kind: u8,
    code: u8,
    param: u32,
) -> usize
    requires { (i < session_limit) × (output_minimum ≤ length out.old) × (differs (eqb code 1) (exchange_at (rest_of w.old) i).rmt_expected ≡ true) }
    ensures { (result ≤ 34) × ((s : List ℕ) → Turned (view (memory w.old s)) i kind code param (view (memory w.new s)) out.old
        out.new result) × ((s : List ℕ) → Tidy (memory w.old s) → Tidy (memory w.new s)) }
{
    let end = out_of_turn(w, out, i, param);
    note_command(w, i, kind, code, param);
    step_number(w, i);
    end
}

// A Data, DataEND or Trigger just before it acts: RMT-delivered is tested against the expectation, which is cleared; how many bytes of
// the output say that it interrupts.
fn take_turn(w: &mut Words, out: &mut [u8], i: usize, kind: u8, code: u8, param: u32) -> usize
    requires { (i < session_limit) × (output_minimum ≤ length out.old) }
    ensures { (result ≤ 34) × ((s : List ℕ) → Turned (view (memory w.old s)) i kind code param (view (memory w.new s)) out.old
        out.new result) × ((s : List ℕ) → Tidy (memory w.old s) → Tidy (memory w.new s)) }
{
    if in_turn(w, i, code) {
        note_in_turn(w, i, kind, code, param);
        return 0;
    }
    note_out_of_turn(w, out, i, kind, code, param)
}

// A message of a kind that passed all checks acts: a command that is out of turn interrupts first, moves the number expected, and a release
// that waits for it takes effect behind it.
pub fn act_synchronous(
    w: &mut Words,
    strings: &mut Strings,
    out: &mut [u8],
    c: u64,
    i: usize,
    kind: u8,
    code: u8,
    param: u32,
    len: u64,
) -> Delivery
    requires { (c < connection_limit) × (i < session_limit) × (len ≤ payload_limit) × (output_minimum ≤ length out.old) }
    ensures { (p : List ℕ) → Did (finish (view (memory w.old strings.old))
        (acts r_synchronous (view (memory w.old strings.old)) i c (record { kind = kind; code = code; param = param; len = len }) p)) result
        (memory w.old strings.old) (memory w.new strings.new) out.old out.new }
{
    let session = tables::entry(w, i, tables::NUMBER);
    if is_command(kind) {
        let at = take_turn(w, out, i, kind, code, param);
        let end = complete::at_message(w, strings, out, at, i, param);
        return answer::acted(session, len, end as u64);
    }
    leave_clear(w, i, code);
    frame::put_frame(
        out,
        0,
        c as u8,
        types::DEVICE_CLEAR_ACKNOWLEDGE,
        code % 2,
        0,
    );
    answer::acted(session, len, 17)
}

// A Data, DataEND or Trigger acts while no release of its session stands: there is nothing to send but that it interrupts.
pub fn act_plainly(
    w: &mut Words,
    out: &mut [u8],
    i: usize,
    kind: u8,
    code: u8,
    param: u32,
    len: u64,
) -> Delivery
    requires { (i < session_limit) × (len ≤ payload_limit) × (output_minimum ≤ length out.old) × (is_command kind ≡ true)
        × ((s : List ℕ) → stands (at (locks_of w.old s).entries i).standing ≡ false) }
    ensures { (s p : List ℕ) (c : ℕ) → Did (finish (view (memory w.old s))
        (acts r_synchronous (view (memory w.old s)) i c (record { kind = kind; code = code; param = param; len = len }) p)) result
        (memory w.old s) (memory w.new s) out.old out.new }
{
    let session = tables::entry(w, i, tables::NUMBER);
    complete::note_message(w, i, param);
    if in_turn(w, i, code) {
        note_in_turn(w, i, kind, code, param);
        return answer::acted(session, len, 0);
    }
    let end = note_out_of_turn(w, out, i, kind, code, param);
    answer::acted(session, len, end as u64)
}
