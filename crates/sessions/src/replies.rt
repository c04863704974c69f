// What is done with a message that does not act: skipped, ignored, answered with an Error; a FatalError, and a closing without reply.
ghost use Rattle.std.specs.Prelude.{ℕ, ◌+◌, ◌-◌, ◌<◌, ◌≤◌, length, List, [], ◌≡◌};
ghost use Rattle.sessions.specs.Did.{Did};
ghost use Rattle.sessions.specs.Replies.{close_plan, error_plan, fatals, ignore_plan, skip_plan};
ghost use Rattle.model.specs.Place.{slot_in};
ghost use Rattle.model.specs.State.{at, connection_at, open_connection, with_connection};
ghost use Rattle.model.specs.Step.{channels, finish};
ghost use Rattle.state.specs.Change.{on_rest};
ghost use Rattle.state.specs.Tidy.{Tidy};
ghost use Rattle.state.specs.View.{locks_of, memory, rest_of, view};
ghost use Rattle.wire.specs.Frame.{bytes_of};
ghost use Rattle.wire.specs.Splice.{splice};
ghost use Rattle.model.specs.Sizes.{connection_limit, output_minimum};

use crate::outcome::Outcome;
use crate::{Delivery, answer, closing};
use state::sizes::{NO_CONNECTION, SESSION_LIMIT, Strings, Words};
use state::tables;
use wire::{frame, types};

// Connection c is open, with so many bytes to skip.
pub fn keep_open(w: &mut Words, c: u64, left: u64)
    requires { c < connection_limit }
    ensures { ((s : List ℕ) → view (memory w.new s) ≡ on_rest (view (memory w.old s))
        (λ r. with_connection r c (open_connection left))) × ((s : List ℕ) → Tidy (memory w.old s) → Tidy (memory w.new s)) }
{
    tables::set_connection(w, c as usize, tables::IS_OPEN, 1);
    tables::set_connection(w, c as usize, tables::REMAINDER, left);
}

// An Error goes back to the connection; so many bytes are taken, and so many are left to skip.
pub fn send_error(
    w: &mut Words,
    out: &mut [u8],
    c: u64,
    code: u8,
    taken: u64,
    left: u64,
) -> Delivery
    requires { (c < connection_limit) × (output_minimum ≤ length out.old) }
    ensures { (s : List ℕ) → Did (finish (view (memory w.old s)) (error_plan (view (memory w.old s)) c code taken left)) result
        (memory w.old s) (memory w.new s) out.old out.new }
{
    keep_open(w, c, left);
    frame::put_frame(out, 0, c as u8, types::ERROR, code, 0);
    answer::error_sent(taken)
}

// So many bytes of the remainder are skipped.
pub fn skip(w: &mut Words, c: u64, remainder: u64, taken: u64) -> Delivery
    requires { (c < connection_limit) × (taken ≤ remainder) × (remainder ≡ (connection_at (rest_of w.old) c).remainder) }
    ensures { (s out : List ℕ) → Did (finish (view (memory w.old s)) (skip_plan (view (memory w.old s)) c taken)) result
        (memory w.old s) (memory w.new s) out out }
{
    keep_open(w, c, remainder - taken);
    answer::quiet(Outcome::Skipped, taken)
}

// The FatalError to each connection of the session in slot i, or to connection c alone; the place behind it.
fn put_fatal(w: &Words, out: &mut [u8], c: u64, i: usize, code: u8) -> usize
    requires { (c < connection_limit) × (output_minimum ≤ length out.old) × ((s : List ℕ) → slot_in (locks_of w.now s).entries c ≡ i) }
    ensures { (result ≤ 34) × ((s : List ℕ) → out.new ≡ splice out.old 0
        (bytes_of (fatals code (channels (view (memory w.now s)) c))))
        × ((s : List ℕ) → result ≡ length (bytes_of (fatals code (channels (view (memory w.now s)) c)))) }
{
    if i >= SESSION_LIMIT {
        frame::put_frame(out, 0, c as u8, types::FATAL_ERROR, code, 0);
        return 17;
    }
    let x = (tables::entry(w, i, tables::SYNCHRONOUS) % 256) as u8;
    let y = tables::entry(w, i, tables::ASYNCHRONOUS) % 256;
    frame::put_frame(out, 0, x, types::FATAL_ERROR, code, 0);
    if y == NO_CONNECTION {
        return 17;
    }
    frame::put_frame(out, 17, y as u8, types::FATAL_ERROR, code, 0);
    34
}

fn number_of(w: &Words, i: usize) -> u64
    ensures { (s : List ℕ) → (at (locks_of w.now s).entries i).number ≡ result }
{
    if i >= SESSION_LIMIT {
        return 0;
    }
    tables::entry(w, i, tables::NUMBER)
}

// A FatalError, and the session, or the connection, closes.
pub fn send_fatal(
    w: &mut Words,
    strings: &mut Strings,
    out: &mut [u8],
    c: u64,
    i: usize,
    code: u8,
) -> Delivery
    requires { (c < connection_limit) × (output_minimum ≤ length out.old) × ((s : List ℕ) → slot_in (locks_of w.old s).entries c ≡ i) }
    ensures { Did (finish (view (memory w.old strings.old))
        (close_plan (view (memory w.old strings.old)) c i
        (fatals code (channels (view (memory w.old strings.old)) c)))) result (memory w.old strings.old)
        (memory w.new strings.new) out.old out.new }
{
    let session = number_of(w, i);
    let at = put_fatal(w, out, c, i, code);
    let end = closing::close_place(w, strings, out, at, c, i);
    answer::closed(session, end as u64)
}

// The session closes without reply.
pub fn close_silently(
    w: &mut Words,
    strings: &mut Strings,
    out: &mut [u8],
    c: u64,
    i: usize,
) -> Delivery
    requires { (c < connection_limit) × (output_minimum ≤ length out.old) × ((s : List ℕ) → slot_in (locks_of w.old s).entries c ≡ i) }
    ensures { Did (finish (view (memory w.old strings.old))
        (close_plan (view (memory w.old strings.old)) c i [])) result (memory w.old strings.old)
        (memory w.new strings.new) out.old out.new }
{
    let session = number_of(w, i);
    let end = closing::close_place(w, strings, out, 0, c, i);
    answer::closed(session, end as u64)
}
