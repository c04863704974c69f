// The events that are no deliveries, but for a cut and the clock: a connection opens, the status byte changes, the instrument answers.
ghost use Rattle.std.specs.Prelude.{ℕ, ◌+◌, ◌<◌, ◌≤◌, length, List, ◌≡◌};
ghost use Rattle.exchanges.specs.Events.{Answers, Sends, request_frame};
ghost use Rattle.model.specs.Exchange.{answer_number, answered_with};
ghost use Rattle.model.specs.State.{at, exchange_at, open_connection, with_connection, with_exchange, with_status};
ghost use Rattle.model.specs.Step.{answer_type};
ghost use Rattle.state.specs.Change.{on_rest};
ghost use Rattle.state.specs.Tidy.{Tidy};
ghost use Rattle.state.specs.View.{locks_of, memory, rest_of, view};
ghost use Rattle.wire.specs.Frame.{frame_bytes};
ghost use Rattle.wire.specs.Splice.{splice};
ghost use Rattle.model.specs.Sizes.{connection_limit, output_minimum, payload_limit, session_limit};

use holding::standing::NUMBERS;
use readings::request::request_code;
use sensing::sense;
use sessions::mode;
use sessions::replies::keep_open;
use state::sizes::Words;
use state::tables;
use wire::message_id::MessageId;
use wire::{frame, types};

// Connection c opens, with nothing to skip.
pub fn open_connection(w: &mut Words, c: u64)
    requires { c < connection_limit }
    ensures { ((s : List ℕ) → view (memory w.new s) ≡ on_rest (view (memory w.old s)) (λ r. with_connection r c (open_connection 0)))
        × ((s : List ℕ) → Tidy (memory w.old s) → Tidy (memory w.new s)) }
{
    keep_open(w, c, 0);
}

// The instrument's status byte changes.
pub fn set_status(w: &mut Words, b: u8)
    ensures { ((s : List ℕ) → view (memory w.new s) ≡ on_rest (view (memory w.old s)) (λ r. with_status r b))
        × ((s : List ℕ) → Tidy (memory w.old s) → Tidy (memory w.new s)) }
{
    tables::set_single(w, tables::STATUS, b as u64);
}

// The number that an answer of slot i carries: in overlap mode the count; else that of the message asked, 0 if nothing is asked.
fn answer_number(w: &Words, i: usize) -> MessageId
    requires { i < session_limit }
    ensures { answer_number (exchange_at (rest_of w.now) i) ≡ result.number }
{
    if mode::is_overlap(w, i) {
        return mode::count_of(w, i);
    }
    let v = tables::exchange(w, i, tables::ASKED);
    if v == 0 {
        return MessageId::new(0);
    }
    MessageId::new(((v - 1) % NUMBERS) as u32)
}

// Slot i was sent an answer: message available goes on, it is counted, and with END nothing is asked any more and an RMT is expected.
fn note_answer(w: &mut Words, i: usize, end: bool)
    requires { i < session_limit }
    ensures { ((s : List ℕ) → view (memory w.new s) ≡ on_rest (view (memory w.old s))
        (λ r. with_exchange r i (answered_with end (exchange_at r i)))) × ((s : List ℕ) → Tidy (memory w.old s) → Tidy (memory w.new s)) }
{
    tables::set_exchange(w, i, tables::AVAILABLE, 1);
    mode::count_answer(w, i);
    if !end {
        return;
    }
    tables::set_exchange(w, i, tables::ASKED, 0);
    tables::set_exchange(w, i, tables::RMT_EXPECTED, 1);
}

// Data, or DataEND with END.
fn answer_kind(end: bool) -> u8
    ensures { answer_type end ≡ result }
{
    if end { types::DATA_END } else { types::DATA }
}

// The instrument's answer to slot i goes to its synchronous connection; how many bytes of the output hold it.
pub fn send_answer(w: &mut Words, out: &mut [u8], i: usize, end: bool, payload: &[u8]) -> usize
    requires { (i < session_limit) × (length payload.now ≤ payload_limit) × (output_minimum ≤ length out.old) }
    ensures { ((s : List ℕ) → Answers (view (memory w.old s)) i end payload.now (view (memory w.new s))
        out.old out.new result) × ((s : List ℕ) → Tidy (memory w.old s) → Tidy (memory w.new s)) }
{
    let c = (tables::entry(w, i, tables::SYNCHRONOUS) % 256) as u8;
    let id = answer_number(w, i);
    note_answer(w, i, end);
    frame::put_message(out, 0, c, answer_kind(end), 0, id.number, payload);
    17 + payload.len()
}

// AsyncServiceRequest
const ASYNC_SERVICE_REQUEST: u8 = 20;

// The request for service of slot i, from a place on: the code is the status byte with values 16 and 64 set.
fn put_request(w: &Words, out: &mut [u8], place: usize, i: usize)
    requires { (i < session_limit) × (place + 17 ≤ length out.old) }
    ensures { (s : List ℕ) → out.new ≡ splice out.old place (frame_bytes (request_frame (at (locks_of w.now s).entries i) (rest_of w.now).status)) }
{
    let c = (tables::entry(w, i, tables::ASYNCHRONOUS) % 256) as u8;
    let b = (tables::single(w, tables::STATUS) % 256) as u8;
    frame::put_frame(out, place, c, ASYNC_SERVICE_REQUEST, request_code(b), 0);
}

// The same with its readings: behind the answer stands the request for service, if it is the first to trip the watch.
pub fn send_readings(w: &mut Words, out: &mut [u8], i: usize, end: bool, payload: &[u8]) -> usize
    requires { (i < session_limit) × (length payload.now ≤ payload_limit) × (output_minimum ≤ length out.old) }
    ensures { ((s : List ℕ) → Sends (view (memory w.old s)) i end payload.now (view (memory w.new s)) out.old
        out.new result) × ((s : List ℕ) → Tidy (memory w.old s) → Tidy (memory w.new s)) }
{
    let n = send_answer(w, out, i, end, payload);
    if !sense::sense(w, i, payload) {
        return n;
    }
    put_request(w, out, n, i);
    n + 17
}
