// Opening a session: Initialize and AsyncInitialize that act, on a connection without a role.
ghost use Rattle.std.specs.Prelude.{ℕ, ◌/◌, ◌<◌, ◌≤◌, min, length, false, true, List, ◌≡◌};
ghost use Rattle.sessions.specs.Did.{Did};
ghost use Rattle.sessions.specs.Opening.{changed};
ghost use Rattle.model.specs.Acts.{acts, opens};
ghost use Rattle.model.specs.Locks.LockEvent.{enter};
ghost use Rattle.model.specs.Place.Role.{r_none};
ghost use Rattle.model.specs.State.{at, half_open, slot_of_number, with_session};
ghost use Rattle.model.specs.Step.{finish};
ghost use Rattle.state.specs.Channels.{Unshown};
ghost use Rattle.state.specs.Tidy.{Tidy};
ghost use Rattle.state.specs.View.{locks_of, memory, rest_of, row_word, view};
ghost use Rattle.model.specs.Sizes.{connection_limit, output_minimum, payload_limit, session_limit};

use crate::closing::renew_exchange;
use crate::{Delivery, answer, mode, session_id};
use holding::sessions;
use state::sizes::{Strings, Words};
use state::{search, tables};
use wire::{frame, types};

// Session n opens in slot i over connection c, in the mode that the host prefers.
fn enter_session(w: &mut Words, strings: &mut Strings, i: usize, n: u64, c: u64)
    requires { (i < session_limit) × (n < 65536) × (n ≡ 0 → ⊥) × (c < connection_limit) × Unshown w.old c × (row_word w.old i 0 ≡ 0) }
    ensures { (view (memory w.new strings.new) ≡ changed (view (memory w.old strings.old)) (enter i n c)
        (with_session (view (memory w.old strings.old)).rest i n))
        × (Tidy (memory w.old strings.old) → Tidy (memory w.new strings.new)) }
{
    sessions::enter_slot(w, strings, i, n, c);
    let mode = tables::single(w, tables::PREFERENCE);
    renew_exchange(w, i, mode);
    tables::set_single(w, tables::LAST, n);
}

// The version that is agreed on: the smaller of the client's and 1.0.
fn version(param: u32) -> u32
    ensures { (result ≡ min (param / 65536) 256) × (result ≤ 256) }
{
    (param / 65536).min(256)
}

// Initialize that acts: the first free slot, the next SessionID.
pub fn initialize(
    w: &mut Words,
    strings: &mut Strings,
    out: &mut [u8],
    c: u64,
    param: u32,
    len: u64,
) -> Delivery
    requires { (c < connection_limit) × (len ≤ payload_limit) × (output_minimum ≤ length out.old) × ((s : List ℕ) → slot_of_number (locks_of w.old s).entries 0 < session_limit) × Unshown w.old c }
    ensures { Did (finish (view (memory w.old strings.old))
        (opens true (view (memory w.old strings.old)) c (record { kind = 0; code = 0; param = param; len = len }))) result
        (memory w.old strings.old) (memory w.new strings.new) out.old out.new }
{
    let i = search::slot_of_number(w, 0);
    let n = session_id::next_session_id(w);
    let v = version(param);
    let mode = mode::preference(w);
    enter_session(w, strings, i, n, c);
    frame::put_frame(
        out,
        0,
        c as u8,
        types::INITIALIZE_RESPONSE,
        mode,
        v * 65536 + n as u32,
    );
    answer::acted(n, len, 17)
}

// AsyncInitialize that acts: the second connection of the session with the number in the parameter.
pub fn async_initialize(w: &mut Words, out: &mut [u8], c: u64, param: u32, len: u64) -> Delivery
    requires { (c < connection_limit) × (len ≤ payload_limit) × (output_minimum ≤ length out.old)
        × ((s : List ℕ) → slot_of_number (locks_of w.old s).entries param < session_limit)
        × ((s : List ℕ) → half_open (at (locks_of w.old s).entries (slot_of_number (locks_of w.old s).entries param)) ≡ true) × Unshown w.old c }
    ensures { (s : List ℕ) → Did (finish (view (memory w.old s))
        (opens false (view (memory w.old s)) c (record { kind = 17; code = 0; param = param; len = len }))) result (memory w.old s)
        (memory w.new s) out.old out.new }
{
    let i = search::slot_of_number(w, param as u64);
    let vendor = (tables::single(w, tables::VENDOR) % 65536) as u32;
    sessions::join_slot(w, i, c);
    frame::put_frame(out, 0, c as u8, types::ASYNC_INITIALIZE_RESPONSE, 0, vendor);
    answer::acted(param as u64, len, 17)
}

// A message that acts on a connection without a role: Initialize by its kind, else AsyncInitialize.
pub fn act_opening(
    w: &mut Words,
    strings: &mut Strings,
    out: &mut [u8],
    c: u64,
    kind: u8,
    param: u32,
    len: u64,
) -> Delivery
    requires { (c < connection_limit) × (len ≤ payload_limit) × (output_minimum ≤ length out.old)
        × ((s : List ℕ) → kind ≡ 0 → slot_of_number (locks_of w.old s).entries 0 < session_limit)
        × ((s : List ℕ) → (kind ≡ 0 → ⊥) → slot_of_number (locks_of w.old s).entries param < session_limit)
        × ((s : List ℕ) → (kind ≡ 0 → ⊥) → half_open (at (locks_of w.old s).entries (slot_of_number (locks_of w.old s).entries param)) ≡ true)
        × Unshown w.old c }
    ensures { (p : List ℕ) (i code : ℕ) → Did (finish (view (memory w.old strings.old))
        (acts r_none (view (memory w.old strings.old)) i c (record { kind = kind; code = code; param = param; len = len }) p)) result
        (memory w.old strings.old) (memory w.new strings.new) out.old out.new }
{
    if kind == types::INITIALIZE {
        return initialize(w, strings, out, c, param, len);
    }
    async_initialize(w, out, c, param, len)
}
