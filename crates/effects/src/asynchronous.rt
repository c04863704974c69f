// The messages of the asynchronous lane that act, kind by kind.
ghost use Rattle.std.specs.Prelude.{ℕ, ◌+◌, ◌<◌, ◌≤◌, length, cond, List, ◌≡◌};
ghost use Rattle.sessions.specs.Asynchronous.{DidKind, heading};
ghost use Rattle.effects.specs.Control.{controlling, flagging};
ghost use Rattle.sessions.specs.Did.{Did};
ghost use Rattle.effects.specs.StatusQuery.{available_now, unread_by};
ghost use Rattle.model.specs.Acts.AsynchronousKind.{k_device_clear, k_lock, k_lock_info, k_maximum_size, k_remote_local, k_status_query};
ghost use Rattle.model.specs.Acts.{acts};
ghost use Rattle.model.specs.Exchange.{enter_clear, status_byte};
ghost use Rattle.model.specs.Place.Role.{r_asynchronous};
ghost use Rattle.model.specs.State.{exchange_at};
ghost use Rattle.model.specs.Step.{finish};
ghost use Rattle.remote.specs.Shown.{shown};
ghost use Rattle.state.specs.Change.{on_exchange, on_rest};
ghost use Rattle.state.specs.Tidy.{Tidy};
ghost use Rattle.state.specs.View.{memory, rest_of, view};
ghost use Rattle.model.specs.Sizes.{connection_limit, output_minimum, payload_limit, session_limit};

use exchanges::interrupted::note_query;
use exchanges::rmt::same_number;
use grants::grant_pass;
use holding::{info, standing};
use locks::{complete, release, request};
use remote::RemoteLocal;
use sessions::{Delivery, answer, mode};
use state::fresh::START;
use state::sizes::{Strings, Words};
use state::tables;
use wire::message_id::MessageId;
use wire::{frame, number, types};

// In overlap mode, 1 where some answer was sent and its number is not the one that the query carries.
fn unread(w: &Words, i: usize, param: u32) -> u64
    requires { i < session_limit }
    ensures { (result ≡ cond (unread_by param (exchange_at (rest_of w.now) i)) 1 0) × (result ≤ 1) }
{
    if tables::exchange(w, i, tables::ANY_SENT) != 1 {
        return 0;
    }
    let count = mode::count_of(w, i);
    let behind = MessageId::new(param).next();
    u64::from(behind.number != count.number)
}

// Message available of slot i, as a number.
fn available(w: &Words, i: usize, param: u32) -> u64
    requires { i < session_limit }
    ensures { (result ≡ cond (available_now param (exchange_at (rest_of w.now) i)) 1 0) × (result ≤ 1) }
{
    if mode::is_overlap(w, i) {
        return unread(w, i, param);
    }
    same_number(tables::exchange(w, i, tables::AVAILABLE), 1)
}

// The instrument's status byte, with value 16 replaced by message available of slot i.
fn status_of(w: &Words, i: usize, param: u32) -> u8
    requires { i < session_limit }
    ensures { result ≡ status_byte (rest_of w.now).status (available_now param (exchange_at (rest_of w.now) i)) }
{
    let all = tables::single(w, tables::STATUS) % 256;
    let low = all % 16 + all / 32 * 32;
    let on = available(w, i, param);
    (low + on * 16) as u8
}

// AsyncStatusQuery.
pub fn query_status(
    w: &mut Words,
    out: &mut [u8],
    c: u64,
    i: usize,
    code: u8,
    param: u32,
    len: u64,
) -> Delivery
    requires { (i < session_limit) × (c < connection_limit) × (len ≤ payload_limit) × (output_minimum ≤ length out.old) }
    ensures { (s p : List ℕ) → DidKind k_status_query i c code param len p result (memory w.old s) (memory w.new s) out.old out.new }
{
    let n = tables::entry(w, i, tables::NUMBER);
    note_query(w, i, code);
    let b = status_of(w, i, param);
    frame::put_frame(out, 0, c as u8, types::ASYNC_STATUS_RESPONSE, b, 0);
    answer::acted(n, len, 17)
}

// AsyncLockInfo.
fn tell_locks(w: &Words, out: &mut [u8], c: u64, i: usize, len: u64) -> Delivery
    requires { (i < session_limit) × (c < connection_limit) × (len ≤ payload_limit) × (output_minimum ≤ length out.old) }
    ensures { (s p : List ℕ) (code param : ℕ) → DidKind k_lock_info i c code param len p result (memory w.now s) (memory w.now s) out.old out.new }
{
    let n = tables::entry(w, i, tables::NUMBER);
    let x = info::exclusive_code(w);
    let y = info::holder_count(w);
    frame::put_frame(out, 0, c as u8, types::ASYNC_LOCK_INFO_RESPONSE, x, y);
    answer::acted(n, len, 17)
}

// The three flags, read: on where the word is 1.
fn flags_of(w: &Words) -> RemoteLocal
    ensures { shown result ≡ (rest_of w.now).remote_local }
{
    RemoteLocal {
        enable: tables::single(w, tables::ENABLE) == 1,
        lockout: tables::single(w, tables::LOCKOUT) == 1,
        remote: tables::single(w, tables::REMOTE) == 1,
    }
}

// The three flags, stored.
fn set_flags(w: &mut Words, f: RemoteLocal)
    ensures { ((s : List ℕ) → view (memory w.new s) ≡ on_rest (view (memory w.old s)) (flagging (shown f)))
        × ((s : List ℕ) → Tidy (memory w.old s) → Tidy (memory w.new s)) }
{
    tables::set_single(w, tables::ENABLE, tables::word_of(f.enable));
    tables::set_single(w, tables::LOCKOUT, tables::word_of(f.lockout));
    tables::set_single(w, tables::REMOTE, tables::word_of(f.remote));
}

// What the code makes of the three flags: read, changed in place, stored.
fn set_control(w: &mut Words, code: u8)
    ensures { ((s : List ℕ) → view (memory w.new s) ≡ on_rest (view (memory w.old s)) (controlling code))
        × ((s : List ℕ) → Tidy (memory w.old s) → Tidy (memory w.new s)) }
{
    let mut flags = flags_of(w);
    flags.control(code);
    set_flags(w, flags);
}

// AsyncRemoteLocalControl.
fn control(w: &mut Words, out: &mut [u8], c: u64, i: usize, code: u8, len: u64) -> Delivery
    requires { (i < session_limit) × (c < connection_limit) × (len ≤ payload_limit) × (output_minimum ≤ length out.old) }
    ensures { (s p : List ℕ) (param : ℕ) → DidKind k_remote_local i c code param len p result (memory w.old s) (memory w.new s) out.old out.new }
{
    let n = tables::entry(w, i, tables::NUMBER);
    set_control(w, code);
    frame::put_frame(out, 0, c as u8, types::ASYNC_REMOTE_LOCAL_RESPONSE, 0, 0);
    answer::acted(n, len, 17)
}

// AsyncMaximumMessageSize: the client's size is noted, and the server's is 1,024.
fn note_size(w: &mut Words, out: &mut [u8], c: u64, i: usize, len: u64, payload: &[u8]) -> Delivery
    requires { (i < session_limit) × (c < connection_limit) × (len ≤ payload_limit) × (length payload.now ≡ 8) × (output_minimum ≤ length out.old) }
    ensures { (s : List ℕ) (code param : ℕ) → DidKind k_maximum_size i c code param len payload.now result (memory w.old s)
        (memory w.new s) out.old out.new }
{
    let n = tables::entry(w, i, tables::NUMBER);
    let size = number::number::<8>(payload, 0);
    tables::set_exchange(w, i, tables::CLIENT_SIZE, size);
    let bytes = [0, 0, 0, 0, 0, 0, 4, 0];
    frame::put_message(
        out,
        0,
        c as u8,
        types::ASYNC_MAXIMUM_MESSAGE_SIZE_RESPONSE,
        0,
        0,
        &bytes,
    );
    answer::acted(n, len, 25)
}

// In device clear, with nothing asked, no message available, no answer counted, and the first number expected.
fn enter_clear(w: &mut Words, i: usize)
    requires { i < session_limit }
    ensures { ((s : List ℕ) → view (memory w.new s) ≡ on_exchange (view (memory w.old s)) i enter_clear)
        × ((s : List ℕ) → Tidy (memory w.old s) → Tidy (memory w.new s)) }
{
    tables::set_exchange(w, i, tables::IN_CLEAR, 1);
    tables::set_exchange(w, i, tables::ASKED, 0);
    tables::set_exchange(w, i, tables::AVAILABLE, 0);
    tables::set_exchange(w, i, tables::RMT_EXPECTED, 0);
    tables::set_exchange(w, i, tables::NUMBER_EXPECTED, START);
    mode::reset_count(w, i);
}

// AsyncDeviceClear: the answers to a request that waits and to a release that stands, the acknowledgement, and, where a lock was freed,
// those that wait are looked at.
fn clear(
    w: &mut Words,
    strings: &mut Strings,
    out: &mut [u8],
    c: u64,
    i: usize,
    len: u64,
) -> Delivery
    requires { (i < session_limit) × (c < connection_limit) × (len ≤ payload_limit) × (output_minimum ≤ length out.old) }
    ensures { (p : List ℕ) (code param : ℕ) → DidKind k_device_clear i c code param len p result (memory w.old strings.old)
        (memory w.new strings.new) out.old out.new }
{
    let n = tables::entry(w, i, tables::NUMBER);
    let mode = mode::preference(w);
    let stood = standing::stands(w, i);
    let at = complete::at_clear(w, strings, out, 0, i);
    enter_clear(w, i);
    frame::put_frame(
        out,
        at,
        c as u8,
        types::ASYNC_DEVICE_CLEAR_ACKNOWLEDGE,
        mode,
        0,
    );
    let end = at + 17;
    if stood {
        let last = grant_pass::grant_waiting(w, strings, out, end);
        return answer::acted(n, len, last as u64);
    }
    answer::acted(n, len, end as u64)
}

// AsyncLock: code 0 releases, with the parameter as the number of the message named; any other code requests.
fn lock(
    w: &mut Words,
    strings: &mut Strings,
    out: &mut [u8],
    i: usize,
    code: u8,
    param: u32,
    len: u64,
    payload: &[u8],
) -> Delivery
    requires { (i < session_limit) × (len ≤ payload_limit) × (output_minimum ≤ length out.old) }
    ensures { (c : ℕ) → DidKind k_lock i c code param len payload.now result (memory w.old strings.old)
        (memory w.new strings.new) out.old out.new }
{
    let n = tables::entry(w, i, tables::NUMBER);
    if code == 0 {
        let end = release::release_lock(w, strings, out, 0, i, param);
        return answer::acted(n, len, end as u64);
    }
    let end = request::request_lock(w, strings, out, 0, i, param, payload);
    answer::acted(n, len, end as u64)
}

// What a message of the asynchronous lane does, by its type.
pub fn act_asynchronous(
    w: &mut Words,
    strings: &mut Strings,
    out: &mut [u8],
    c: u64,
    i: usize,
    kind: u8,
    code: u8,
    param: u32,
    len: u64,
    payload: &[u8],
) -> Delivery
    requires { (i < session_limit) × (c < connection_limit) × (len ≤ payload_limit) × (length payload.now ≡ len) × (output_minimum ≤ length out.old) × (kind ≡ 15 → len ≡ 8) }
    ensures { Did (finish (view (memory w.old strings.old))
        (acts r_asynchronous (view (memory w.old strings.old)) i c (heading kind code param len) payload.now)) result
        (memory w.old strings.old) (memory w.new strings.new) out.old out.new }
{
    match kind {
        types::ASYNC_LOCK => lock(w, strings, out, i, code, param, len, payload),
        types::ASYNC_REMOTE_LOCAL_CONTROL => control(w, out, c, i, code, len),
        types::ASYNC_MAXIMUM_MESSAGE_SIZE => note_size(w, out, c, i, len, payload),
        types::ASYNC_DEVICE_CLEAR => clear(w, strings, out, c, i, len),
        types::ASYNC_STATUS_QUERY => query_status(w, out, c, i, code, param, len),
        _ => tell_locks(w, out, c, i, len),
    }
}
