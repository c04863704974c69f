// A delivery, stage by stage as the model has it: scan, verdict, effect.
ghost use Rattle.std.specs.Prelude.{ℕ, ◌+◌, ◌<◌, ◌≤◌, min, length, false, true, List, ◌≡◌};
ghost use Rattle.checks.specs.Verdicts.{message, verdict_meant};
ghost use Rattle.sessions.specs.Did.{Did};
ghost use Rattle.model.specs.Acts.{acts};
ghost use Rattle.model.specs.Allowing.{admits};
ghost use Rattle.model.specs.Checks.{Verdict.v_acts, judged};
ghost use Rattle.effects.specs.Numbering.{moved_by};
ghost use Rattle.sessions.specs.Synchronous.{is_command};
ghost use Rattle.model.specs.Locks.{stands};
ghost use Rattle.model.specs.Place.{Role, Role.r_asynchronous, Role.r_synchronous, place_of, role_of, slot_in};
ghost use Rattle.model.specs.Scan.{Scan, Scan.whole, fresh_scan, leftover, size};
ghost use Rattle.model.specs.State.{at, connection_at, exchange_at};
ghost use Rattle.delivery.specs.Numbering.{moves_on};
ghost use Rattle.delivery.specs.Scanning.{DidDeliver, DidOn};
ghost use Rattle.model.specs.Step.{effect, finish, number_taken};
ghost use Rattle.state.specs.Channels.{Unshown};
ghost use Rattle.state.specs.Search.{IsWithin, place_meant};
ghost use Rattle.state.specs.View.{allowed_of, locks_of, memory, rest_of, view};
ghost use Rattle.wire.specs.Message.{header, payload_of};
ghost use Rattle.model.specs.Sizes.{connection_limit, output_minimum, payload_limit, session_limit};

use allowed::listing;
use checks::verdict::{POORLY_FORMED_HEADER, Verdict};
use checks::{asynchronous as on_asynchronous, synchronous as on_synchronous, whole};
use effects::{asynchronous, numbering, synchronous};
use locks::{quick, standing};
use sessions::outcome::Outcome;
use sessions::{Delivery, answer, opening, replies};
use state::search::Place;
use state::sizes::{PAYLOAD, Strings, Words};
use state::{search, tables};
use wire::types::{ASYNC_LOCK, ASYNC_STATUS_QUERY, DATA, DATA_END};
use wire::{number, reading};

// Does a message of this kind and number, on the synchronous channel outside a clear, carry the number expected?
fn carries(w: &Words, place: Place, kind: u8, param: u32) -> bool
    requires { IsWithin place }
    ensures moves { (code len : ℕ) → moves_on (place_meant place).role (message kind code param len) (exchange_at (rest_of w.now) (place_meant place).slot) ≡ result }
    ensures inside { result ≡ true → (place_meant place).slot < session_limit }
{
    match place {
        Place::OnSynchronous(i) => {
            !on_synchronous::in_clear(w, i)
                && synchronous::is_command(kind)
                && on_synchronous::is_expected(w, i, param)
        }
        Place::Nowhere | Place::HalfOpen(_) | Place::OnAsynchronous(_) => false,
    }
}

// What a verdict other than "acts" does: so many bytes are taken, and so many are left to skip; an Error moves the number expected where its
// message carries it. Callers take the answer into a local: it is written to memory by this call, and a delivery that acts keeps its own in
// registers. (Where messages are held often, and where more is needed with what is missing, the callers tell it themselves.)
fn apply(
    w: &mut Words,
    strings: &mut Strings,
    out: &mut [u8],
    c: u64,
    i: usize,
    v: Verdict,
    taken: u64,
    left: u64,
    moves: bool,
) -> Delivery
    requires { (c < connection_limit) × (output_minimum ≤ length out.old) × ((s : List ℕ) → slot_in (locks_of w.old s).entries c ≡ i)
        × (v ≡ Verdict.Acts → ⊥) × (moves ≡ true → i < session_limit) }
    ensures { (ro : Role) (x : Scan) → size x ≡ taken → leftover x ≡ left →
        number_taken ro x (exchange_at (rest_of w.old) i) ≡ (moved_by moves (exchange_at (rest_of w.old) i)).number_expected →
        Did (finish (view (memory w.old strings.old))
        (effect (verdict_meant v) x ro (view (memory w.old strings.old)) i c)) result (memory w.old strings.old)
        (memory w.new strings.new) out.old out.new }
{
    match v {
        Verdict::Error(code) => {
            numbering::count_refused(w, i, moves);
            return replies::send_error(w, out, c, code, taken, left);
        }
        Verdict::Fatal(code) => return replies::send_fatal(w, strings, out, c, i, code),
        Verdict::Closed => return replies::close_silently(w, strings, out, c, i),
        Verdict::Ignored => return answer::quiet(Outcome::Ignored, taken),
        Verdict::Held => return answer::quiet(Outcome::Held, 0),
        Verdict::More | Verdict::Acts => {}
    }
    answer::more_needed(0)
}

// A message that passed all checks, on any but a synchronous channel, acts by the place of its connection.
fn act(
    w: &mut Words,
    strings: &mut Strings,
    out: &mut [u8],
    c: u64,
    place: Place,
    kind: u8,
    code: u8,
    param: u32,
    len: u64,
    payload: &[u8],
) -> Delivery
    requires { (c < connection_limit) × (len ≤ payload_limit) × (length payload.now ≡ len) × (output_minimum ≤ length out.old)
        × IsWithin place × ((i : ℕ) → place ≡ Place.OnSynchronous i → ⊥)
        × ((s : List ℕ) → judged (place_meant place).role (view (memory w.old s)) (place_meant place).slot (message kind code param len) payload.now ≡ v_acts)
        × (place ≡ Place.Nowhere → Unshown w.old c) }
    ensures { Did
        (finish (view (memory w.old strings.old))
        (acts (place_meant place).role (view (memory w.old strings.old)) (place_meant place).slot c (message kind code param len) payload.now)) result
        (memory w.old strings.old) (memory w.new strings.new) out.old out.new }
{
    match place {
        Place::OnAsynchronous(i) => asynchronous::act_asynchronous(
            w, strings, out, c, i, kind, code, param, len, payload,
        ),
        Place::Nowhere => opening::act_opening(w, strings, out, c, kind, param, len),
        Place::HalfOpen(_) | Place::OnSynchronous(_) => answer::quiet(Outcome::Acted, 16 + len),
    }
}

// A whole message on a session's synchronous channel, where a list may have to be asked and a release may be completed. It has two callers, and
// so have its checks: each is then a call of its own, and the walk over the list's lines has the registers to itself.
// Kept: this function and the next two, and those of a status query and a lock message, have one shape, a verdict and then what acts, else `apply`. The call of the
// verdict and what acts are all that stands in each; a closure for what acts would be handed the memory, the strings and the buffer, and would need each function's contract again.
fn deliver_fully(
    w: &mut Words,
    strings: &mut Strings,
    out: &mut [u8],
    c: u64,
    i: usize,
    kind: u8,
    code: u8,
    param: u32,
    len: u64,
    payload: &[u8],
) -> Delivery
    requires { (c < connection_limit) × (len ≤ payload_limit) × (length payload.now ≡ len) × (output_minimum ≤ length out.old)
        × ((s : List ℕ) → slot_in (locks_of w.old s).entries c ≡ i) × (i < session_limit) }
    ensures { Did (finish (view (memory w.old strings.old))
        (effect (judged r_synchronous (view (memory w.old strings.old)) i (message kind code param len) payload.now)
        (whole (message kind code param len) payload.now) r_synchronous (view (memory w.old strings.old)) i c)) result
        (memory w.old strings.old) (memory w.new strings.new) out.old out.new }
{
    let place = Place::OnSynchronous(i);
    let v = match whole::whole_verdict_at(w, strings, place, kind, code, param, len, payload) {
        Verdict::Acts => {
            return synchronous::act_synchronous(w, strings, out, c, i, kind, code, param, len);
        }
        Verdict::Held => return answer::quiet(Outcome::Held, 0),
        v => v,
    };
    let moves = carries(w, place, kind, param);
    let told = apply(w, strings, out, c, i, v, 16 + len, 0, moves);
    told
}

// A whole message, by its place: the verdict, and what it does.
// Kept: its header comes number by number, as what is called for it, in `checks` and `effects`, takes it, and as a way that is told its kind leaves out the kind: a
// `Header` would be taken apart again at each call.
fn deliver_kind(
    w: &mut Words,
    strings: &mut Strings,
    out: &mut [u8],
    c: u64,
    place: Place,
    kind: u8,
    code: u8,
    param: u32,
    len: u64,
    payload: &[u8],
) -> Delivery
    requires { (c < connection_limit) × (len ≤ payload_limit) × (length payload.now ≡ len) × (output_minimum ≤ length out.old)
        × ((s : List ℕ) → slot_in (locks_of w.old s).entries c ≡ (place_meant place).slot) × IsWithin place × (place ≡ Place.Nowhere → Unshown w.old c) }
    ensures { Did
        (finish (view (memory w.old strings.old))
        (effect (judged (place_meant place).role (view (memory w.old strings.old)) (place_meant place).slot (message kind code param len) payload.now)
        (whole (message kind code param len) payload.now) (place_meant place).role (view (memory w.old strings.old)) (place_meant place).slot c)) result
        (memory w.old strings.old) (memory w.new strings.new) out.old out.new }
{
    if let Place::OnSynchronous(i) = place {
        let told = deliver_fully(w, strings, out, c, i, kind, code, param, len, payload);
        return told;
    }
    let v = match whole::whole_verdict_at(w, strings, place, kind, code, param, len, payload) {
        Verdict::Acts => return act(w, strings, out, c, place, kind, code, param, len, payload),
        v => v,
    };
    let moves = carries(w, place, kind, param);
    let told = apply(w, strings, out, c, place.slot(), v, 16 + len, 0, moves);
    told
}

// A whole Data or DataEND, which the list allows, of a session of which no release stands.
fn deliver_plain(
    w: &mut Words,
    strings: &mut Strings,
    out: &mut [u8],
    c: u64,
    i: usize,
    kind: u8,
    code: u8,
    param: u32,
    len: u64,
    payload: &[u8],
) -> Delivery
    requires { (c < connection_limit) × (len ≤ payload_limit) × (length payload.now ≡ len) × (output_minimum ≤ length out.old)
        × ((s : List ℕ) → slot_in (locks_of w.old s).entries c ≡ i) × (i < session_limit) × (is_command kind ≡ true)
        × (kind ≡ 7 → admits (allowed_of w.old strings.old) payload.now ≡ true)
        × ((s : List ℕ) → stands (at (locks_of w.old s).entries i).standing ≡ false) }
    ensures { Did (finish (view (memory w.old strings.old))
        (effect (judged r_synchronous (view (memory w.old strings.old)) i (message kind code param len) payload.now)
        (whole (message kind code param len) payload.now) r_synchronous (view (memory w.old strings.old)) i c)) result
        (memory w.old strings.old) (memory w.new strings.new) out.old out.new }
{
    let v = match on_synchronous::synchronous_verdict(w, i, kind, code, param, len) {
        Verdict::Acts => return synchronous::act_plainly(w, out, i, kind, code, param, len),
        Verdict::Held => return answer::quiet(Outcome::Held, 0), // none of it is taken
        v => v,
    };
    let moves = carries(w, Place::OnSynchronous(i), kind, param);
    let told = apply(w, strings, out, c, i, v, 16 + len, 0, moves);
    told
}

// A lock message that passed all checks acts: code 0 releases, 1 requests. Both return a number; the answer is formed here.
fn act_lock(
    w: &mut Words,
    strings: &mut Strings,
    out: &mut [u8],
    c: u64,
    i: usize,
    code: u8,
    param: u32,
    len: u64,
    payload: &[u8],
) -> Delivery
    requires { (c < connection_limit) × (i < session_limit) × (len ≤ payload_limit) × (output_minimum ≤ length out.old) × ((s : List ℕ) → (at (locks_of w.old s).entries i).asynchronous ≡ c) }
    ensures { Did (finish (view (memory w.old strings.old))
        (acts r_asynchronous (view (memory w.old strings.old)) i c (message 4 code param len) payload.now)) result
        (memory w.old strings.old) (memory w.new strings.new) out.old out.new }
{
    let n = tables::entry(w, i, tables::NUMBER);
    if code == 0 {
        let end = quick::release_quickly(w, strings, out, 0, c as u8, i, param);
        return answer::acted(n, len, end as u64);
    }
    let end = quick::request_quickly(w, strings, out, 0, c as u8, i, param, payload);
    answer::acted(n, len, end as u64)
}

// A whole lock message.
fn deliver_lock(
    w: &mut Words,
    strings: &mut Strings,
    out: &mut [u8],
    c: u64,
    i: usize,
    code: u8,
    param: u32,
    len: u64,
    payload: &[u8],
) -> Delivery
    requires { (c < connection_limit) × (len ≤ payload_limit) × (length payload.now ≡ len) × (output_minimum ≤ length out.old)
        × ((s : List ℕ) → slot_in (locks_of w.old s).entries c ≡ i) × (i < session_limit)
        × ((s : List ℕ) → (at (locks_of w.old s).entries i).asynchronous ≡ c) }
    ensures { Did (finish (view (memory w.old strings.old))
        (effect (judged r_asynchronous (view (memory w.old strings.old)) i (message 4 code param len) payload.now)
        (whole (message 4 code param len) payload.now) r_asynchronous (view (memory w.old strings.old)) i c)) result
        (memory w.old strings.old) (memory w.new strings.new) out.old out.new }
{
    let v = match on_asynchronous::asynchronous_verdict(ASYNC_LOCK, code, len) {
        Verdict::Acts => return act_lock(w, strings, out, c, i, code, param, len, payload),
        v => v,
    };
    let told = apply(w, strings, out, c, i, v, 16 + len, 0, false);
    told
}

// A whole status query.
fn deliver_status(
    w: &mut Words,
    strings: &mut Strings,
    out: &mut [u8],
    c: u64,
    i: usize,
    code: u8,
    param: u32,
    len: u64,
    payload: &[u8],
) -> Delivery
    requires { (c < connection_limit) × (len ≤ payload_limit) × (length payload.now ≡ len) × (output_minimum ≤ length out.old)
        × ((s : List ℕ) → slot_in (locks_of w.old s).entries c ≡ i) × (i < session_limit) }
    ensures { Did (finish (view (memory w.old strings.old))
        (effect (judged r_asynchronous (view (memory w.old strings.old)) i (message 21 code param len) payload.now)
        (whole (message 21 code param len) payload.now) r_asynchronous (view (memory w.old strings.old)) i c)) result
        (memory w.old strings.old) (memory w.new strings.new) out.old out.new }
{
    let v = match on_asynchronous::asynchronous_verdict(ASYNC_STATUS_QUERY, code, len) {
        Verdict::Acts => return asynchronous::query_status(w, out, c, i, code, param, len),
        v => v,
    };
    let told = apply(w, strings, out, c, i, v, 16 + len, 0, false);
    told
}

// Is this a Data, or a DataEND while no list of commands is set?
fn is_plain(w: &Words, kind: u8) -> bool
    ensures { result ≡ true → (is_command kind ≡ true) × ((s p : List ℕ) → kind ≡ 7 → admits (allowed_of w.now s) p ≡ true) }
{
    match kind {
        DATA => true,
        DATA_END => !listing::is_set(w),
        _ => false,
    }
}

// A whole message on a session's synchronous channel. Data and DataEND, unless they may complete a release or a list is to be asked, have their
// way: it has one caller, so that checks and effect are compiled for these two kinds. All else is a call, whose answer goes through a local as that of `apply` does.
fn deliver_synchronous(
    w: &mut Words,
    strings: &mut Strings,
    out: &mut [u8],
    c: u64,
    i: usize,
    kind: u8,
    code: u8,
    param: u32,
    len: u64,
    payload: &[u8],
) -> Delivery
    requires { (c < connection_limit) × (len ≤ payload_limit) × (length payload.now ≡ len) × (output_minimum ≤ length out.old)
        × ((s : List ℕ) → slot_in (locks_of w.old s).entries c ≡ i) × (i < session_limit) }
    ensures { Did (finish (view (memory w.old strings.old))
        (effect (judged r_synchronous (view (memory w.old strings.old)) i (message kind code param len) payload.now)
        (whole (message kind code param len) payload.now) r_synchronous (view (memory w.old strings.old)) i c)) result
        (memory w.old strings.old) (memory w.new strings.new) out.old out.new }
{
    if standing::stands(w, i) {
        let told = deliver_kind(
            w,
            strings,
            out,
            c,
            Place::OnSynchronous(i),
            kind,
            code,
            param,
            len,
            payload,
        );
        return told;
    }
    if is_plain(w, kind) {
        return deliver_plain(w, strings, out, c, i, kind, code, param, len, payload);
    }
    let told = deliver_fully(w, strings, out, c, i, kind, code, param, len, payload);
    told
}

// The same on the asynchronous channel, with status queries and lock messages.
fn deliver_asynchronous(
    w: &mut Words,
    strings: &mut Strings,
    out: &mut [u8],
    c: u64,
    i: usize,
    kind: u8,
    code: u8,
    param: u32,
    len: u64,
    payload: &[u8],
) -> Delivery
    requires { (c < connection_limit) × (len ≤ payload_limit) × (length payload.now ≡ len) × (output_minimum ≤ length out.old)
        × ((s : List ℕ) → slot_in (locks_of w.old s).entries c ≡ i) × (i < session_limit)
        × ((s : List ℕ) → (at (locks_of w.old s).entries i).asynchronous ≡ c) }
    ensures { Did (finish (view (memory w.old strings.old))
        (effect (judged r_asynchronous (view (memory w.old strings.old)) i (message kind code param len) payload.now)
        (whole (message kind code param len) payload.now) r_asynchronous (view (memory w.old strings.old)) i c)) result
        (memory w.old strings.old) (memory w.new strings.new) out.old out.new }
{
    if kind == ASYNC_STATUS_QUERY {
        return deliver_status(w, strings, out, c, i, code, param, len, payload);
    }
    if kind == ASYNC_LOCK {
        return deliver_lock(w, strings, out, c, i, code, param, len, payload);
    }
    let told = deliver_kind(
        w,
        strings,
        out,
        c,
        Place::OnAsynchronous(i),
        kind,
        code,
        param,
        len,
        payload,
    );
    told
}

// A whole message, by its place. The rest of its header is read here, and its payload where each place is told, so that the ways before it and the
// tests of the place have neither in registers.
fn deliver_whole(
    w: &mut Words,
    strings: &mut Strings,
    out: &mut [u8],
    c: u64,
    place: Place,
    bytes: &[u8],
) -> Delivery
    requires { (c < connection_limit) × (16 ≤ length bytes.now) × ((header bytes.now).len ≤ payload_limit)
        × (16 + (header bytes.now).len ≤ length bytes.now) × (output_minimum ≤ length out.old)
        × ((s : List ℕ) → place_of (locks_of w.old s).entries c ≡ place_meant place) × IsWithin place × (place ≡ Place.Nowhere → Unshown w.old c) }
    ensures { Did
        (finish (view (memory w.old strings.old))
        (effect (judged (place_meant place).role (view (memory w.old strings.old)) (place_meant place).slot (header bytes.now)
        (payload_of (header bytes.now) bytes.now))
        (whole (header bytes.now) (payload_of (header bytes.now) bytes.now)) (place_meant place).role
        (view (memory w.old strings.old)) (place_meant place).slot c)) result (memory w.old strings.old)
        (memory w.new strings.new) out.old out.new }
{
    let h = reading::header_at(bytes);
    let kind = h.kind;
    let code = h.code;
    let param = h.param;
    let len = h.len;
    let end = 16 + len as usize;
    match place {
        Place::OnSynchronous(i) => {
            let payload = &bytes[16..end];
            return deliver_synchronous(w, strings, out, c, i, kind, code, param, len, payload);
        }
        Place::OnAsynchronous(i) => {
            let payload = &bytes[16..end];
            return deliver_asynchronous(w, strings, out, c, i, kind, code, param, len, payload);
        }
        Place::Nowhere | Place::HalfOpen(_) => {}
    }
    let payload = &bytes[16..end];
    let told = deliver_kind(w, strings, out, c, place, kind, code, param, len, payload);
    told
}

// At least sixteen bytes, with nothing to skip. The place of the connection is looked up on each way by itself, right before it is
// asked which it is: the compiler then makes one branch of the two.
pub fn deliver_message(
    w: &mut Words,
    strings: &mut Strings,
    out: &mut [u8],
    c: u64,
    bytes: &[u8],
) -> Delivery
    requires { (c < connection_limit) × (16 ≤ length bytes.now) × (output_minimum ≤ length out.old) }
    ensures { DidOn (view (memory w.old strings.old)) c (slot_in (locks_of w.old strings.old).entries c) result
        (memory w.old strings.old) (memory w.new strings.new) out.old out.new 0
        (length bytes.now) (role_of (locks_of w.old strings.old).entries c) (fresh_scan bytes.now) }
{
    if !reading::has_prologue(bytes) {
        let place = search::place_of(w, c);
        return replies::send_fatal(w, strings, out, c, place.slot(), POORLY_FORMED_HEADER);
    }
    let len = number::number::<8>(bytes, 8);
    if len > PAYLOAD {
        let h = reading::header_at(bytes);
        let place = search::place_of(w, c);
        let v = whole::long_verdict_at(place);
        let moves = carries(w, place, h.kind, h.param);
        let told = apply(w, strings, out, c, place.slot(), v, 16, len, moves);
        return told;
    }
    let end = 16 + len as usize;
    if bytes.len() < end {
        let place = search::place_of(w, c);
        let h = reading::header_at(bytes);
        let v = match whole::partial_verdict_at(place, h.kind) {
            Verdict::More => return answer::more_needed((end - bytes.len()) as u64),
            v => v,
        };
        let told = apply(w, strings, out, c, place.slot(), v, 0, 0, false);
        return told;
    }
    let place = search::place_of(w, c);
    deliver_whole(w, strings, out, c, place, bytes)
}

// The unread bytes of a connection that has some to skip: so many of them are skipped, or, if none are here, the rest is missing.
pub fn deliver_remainder(w: &mut Words, c: u64, bytes: &[u8]) -> Delivery
    requires { (c < connection_limit) × (0 < (connection_at (rest_of w.old) c).remainder) }
    ensures { (s out : List ℕ) → DidDeliver (view (memory w.old s)) c bytes.now result (memory w.old s)
        (memory w.new s) out out }
{
    let left = tables::connection(w, c as usize, tables::REMAINDER);
    if bytes.is_empty() {
        return answer::more_needed(left);
    }
    replies::skip(w, c, left, left.min(bytes.len() as u64))
}
