// Interrupted queries, in synchronized mode. An answer that ends while the next question is unread is withheld; and each Data,
// DataEND and Trigger is tested just before it acts: one whose RMT-delivered differs from what is expected interrupts.
ghost use Rattle.std.specs.Prelude.{ℕ, ◌<◌, ◌≤◌, eqb, length, not, List, ◌≡◌};
ghost use Rattle.exchanges.specs.Interrupted.{Noted, OutOfTurn, withheld_at};
ghost use Rattle.sessions.specs.Synchronous.{with_slot};
ghost use Rattle.model.specs.Acts.{interruptions};
ghost use Rattle.model.specs.Exchange.{differs, queried};
ghost use Rattle.model.specs.Exchange;
ghost use Rattle.model.specs.Sizes.{output_minimum, session_limit};
ghost use Rattle.model.specs.State.{at, connection_at, exchange_at};
ghost use Rattle.state.specs.Change.{on_rest};
ghost use Rattle.state.specs.Tidy.{Tidy};
ghost use Rattle.state.specs.View.{locks_of, memory, rest_of, view};
ghost use Rattle.wire.specs.Frame.{bytes_of};
ghost use Rattle.wire.specs.Message.{header};
ghost use Rattle.wire.specs.Splice.{splice};

use crate::rmt::{is_command, left_by, note_rmt, same_number};
use sessions::mode::is_overlap;
use state::sizes::{CONNECTIONS, Words};
use state::tables;
use wire::{frame, reading, types};

// AsyncInterrupted, then Interrupted, with the number of the interrupting message.
fn put_pair(w: &Words, out: &mut [u8], i: usize, id: u32)
    requires { (i < session_limit) × (output_minimum ≤ length out.old) }
    ensures { (s : List ℕ) → out.new ≡ splice out.old 0 (bytes_of (interruptions (at (locks_of w.now s).entries i) id)) }
{
    let x = (tables::entry(w, i, tables::ASYNCHRONOUS) % 256) as u8;
    let y = (tables::entry(w, i, tables::SYNCHRONOUS) % 256) as u8;
    frame::put_frame(out, 0, x, types::ASYNC_INTERRUPTED, 0, id);
    frame::put_frame(out, 17, y, types::INTERRUPTED, 0, id);
}

// Nothing is asked any more, and message available goes off.
fn note_interrupted(w: &mut Words, i: usize)
    requires { i < session_limit }
    ensures { ((s : List ℕ) → view (memory w.new s) ≡ on_rest (view (memory w.old s))
        (with_slot i Rattle.model.specs.Exchange.interrupted)) × ((s : List ℕ) → Tidy (memory w.old s) → Tidy (memory w.new s)) }
{
    tables::set_exchange(w, i, tables::ASKED, 0);
    tables::set_exchange(w, i, tables::AVAILABLE, 0);
}

// The session of slot i is interrupted by the message of this number; how many bytes of the output say so.
fn interrupt(w: &mut Words, out: &mut [u8], i: usize, id: u32) -> usize
    requires { (i < session_limit) × (output_minimum ≤ length out.old) }
    ensures { (result ≤ 34) × ((s : List ℕ) → Noted (view (memory w.old s)) i Rattle.model.specs.Exchange.interrupted
        (interruptions (at (locks_of w.old s).entries i) id) (view (memory w.new s)) out.old out.new result)
        × ((s : List ℕ) → Tidy (memory w.old s) → Tidy (memory w.new s)) }
{
    put_pair(w, out, i, id);
    note_interrupted(w, i);
    34
}

// A message whose RMT-delivered differs from what is expected: in synchronized mode it interrupts.
pub fn out_of_turn(w: &mut Words, out: &mut [u8], i: usize, id: u32) -> usize
    requires { (i < session_limit) × (output_minimum ≤ length out.old) }
    ensures { (result ≤ 34) × ((s : List ℕ) → OutOfTurn (view (memory w.old s)) i id (view (memory w.new s)) out.old
        out.new result) × ((s : List ℕ) → Tidy (memory w.old s) → Tidy (memory w.new s)) }
{
    if is_overlap(w, i) {
        tables::set_exchange(w, i, tables::RMT_EXPECTED, 0);
        return 0;
    }
    let end = interrupt(w, out, i, id);
    tables::set_exchange(w, i, tables::RMT_EXPECTED, 0);
    end
}

// Is RMT-delivered, by a message's control code, what is expected of slot i?
pub fn in_turn(w: &Words, i: usize, code: u8) -> bool
    requires { i < session_limit }
    ensures { differs (eqb code 1) (exchange_at (rest_of w.now) i).rmt_expected ≡ not result }
{
    let expected = same_number(tables::exchange(w, i, tables::RMT_EXPECTED), 1);
    same_number(u64::from(code), 1) == expected
}

// A status query: RMT-delivered (code 1) clears the expectation and turns message available off.
pub fn note_query(w: &mut Words, i: usize, code: u8)
    requires { i < session_limit }
    ensures { ((s : List ℕ) → view (memory w.new s) ≡ on_rest (view (memory w.old s)) (with_slot i (queried code)))
        × ((s : List ℕ) → Tidy (memory w.old s) → Tidy (memory w.new s)) }
{
    let expected = tables::exchange(w, i, tables::RMT_EXPECTED);
    tables::set_exchange(w, i, tables::RMT_EXPECTED, left_by(expected, code));
    note_rmt(w, i, code);
}

// The bytes that are to be skipped on a connection.
fn left_on(w: &Words, c: u64) -> u64
    ensures { (connection_at (rest_of w.now) c).remainder ≡ result }
{
    if c >= CONNECTIONS {
        return 0;
    }
    tables::connection(w, c as usize, tables::REMAINDER)
}

// With so many bytes to skip, do the unread ones begin with the header of a Data, DataEND or Trigger?
fn interrupts(left: u64, shown: &[u8]) -> bool
    ensures { Rattle.model.specs.Exchange.interrupts left shown.now ≡ result }
{
    left == 0
        && shown.len() >= 16
        && reading::has_prologue(shown)
        && is_command(reading::header_at(shown).kind)
}

// Is an answer to slot i withheld: it ends, in synchronized mode, and the next question is unread?
pub fn withholds(w: &Words, i: usize, end: bool, shown: &[u8]) -> bool
    requires { i < session_limit }
    ensures { (s : List ℕ) → withheld_at (view (memory w.now s)) i end shown.now ≡ result }
{
    if !end {
        return false;
    }
    let overlap = is_overlap(w, i);
    if overlap {
        return false;
    }
    let c = tables::entry(w, i, tables::SYNCHRONOUS) % 256;
    interrupts(left_on(w, c), shown)
}

// The answer to slot i is withheld: the unread header interrupts it; how many bytes of the output say so.
pub fn withhold(w: &mut Words, out: &mut [u8], i: usize, shown: &[u8]) -> usize
    requires { (i < session_limit) × (16 ≤ length shown.now) × (output_minimum ≤ length out.old) }
    ensures { ((s : List ℕ) → Noted (view (memory w.old s)) i Rattle.model.specs.Exchange.interrupted
        (interruptions (at (locks_of w.old s).entries i) (header shown.now).param) (view (memory w.new s))
        out.old out.new result) × ((s : List ℕ) → Tidy (memory w.old s) → Tidy (memory w.new s)) }
{
    let h = reading::header_at(shown);
    interrupt(w, out, i, h.param)
}
