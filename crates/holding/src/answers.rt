// Answers to lock messages.
ghost use Rattle.std.specs.Prelude.{ℕ, ◌+◌, ◌<◌, ◌≤◌, length, List, ◌≡◌};
ghost use Rattle.holding.specs.Outcome.{lock_answer_frame};
ghost use Rattle.model.specs.State;
ghost use Rattle.state.specs.View.{locks_of};
ghost use Rattle.wire.specs.Frame.{frame_bytes};
ghost use Rattle.wire.specs.Splice.{splice};
ghost use Rattle.model.specs.Sizes.{session_limit};

use state::sizes::Words;
use state::tables;
use wire::{frame, types};

// An answer (type 5) to the asynchronous connection of slot i.
pub fn put_answer(w: &Words, out: &mut [u8], at: usize, i: usize, code: u8) -> usize
    requires { (i < session_limit) × (at + 17 ≤ length out.old) }
    ensures { (result ≡ at + 17) × ((s : List ℕ) → out.new ≡ splice out.old at (frame_bytes (lock_answer_frame (locks_of w.now s).entries i code))) }
{
    let c = (tables::entry(w, i, tables::ASYNCHRONOUS) % 256) as u8;
    put_answer_to(w, out, at, c, i, code)
}

// The same to connection c, which is that one: who has looked it up already does not look again.
pub fn put_answer_to(w: &Words, out: &mut [u8], at: usize, c: u8, i: usize, code: u8) -> usize
    requires { (at + 17 ≤ length out.old) × ((s : List ℕ) → (Rattle.model.specs.State.at (locks_of w.now s).entries i).asynchronous ≡ c) }
    ensures { (result ≡ at + 17) × ((s : List ℕ) → out.new ≡ splice out.old at (frame_bytes (lock_answer_frame (locks_of w.now s).entries i code))) }
{
    frame::put_frame(out, at, c, types::ASYNC_LOCK_RESPONSE, code, 0);
    at + 17
}
