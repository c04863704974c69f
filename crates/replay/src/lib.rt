// Replaying a journal: each entry's event is done by the server's own functions, over lent memory, and what they give is compared with
// the frames beside it.
#![tactic(auto)]

mod body;
mod events;

ghost use Rattle.std.specs.Prelude.{◌+◌, ◌^◌, ◌≤◌, ◌<◌, length, take, ◌≡◌};
ghost use Rattle.model.specs.Sizes.{output_minimum};
ghost use Rattle.replay.specs.Turn.{Turned};
ghost use Rattle.state.specs.View.{memory};
ghost use Rattle.verifier.specs.Standing.{Sound, wanted_of};

use state::sizes::{Strings, Words};
use verifier::{Progress, Standing};

// Bytes of the book, at most as many as are wanted.
fn turn(
    r: Standing,
    buf: &mut [u8],
    words: &mut Words,
    strings: &mut Strings,
    out: &mut [u8],
    bytes: &[u8],
) -> Standing
    requires { Sound r buf.old × (r.fault ≡ None) × (0 < length bytes.now) × (r.have + length bytes.now ≤ wanted_of (take r.have buf.old))
        × (r.at + r.have + length bytes.now < 2 ^ 63) × (length out.old ≡ output_minimum) }
    ensures { Turned result r buf.old buf.new (memory words.old strings.old) (memory words.new strings.new) bytes.now }
{
    let e = r.have + bytes.len();
    match verifier::feed(buf, r.have, bytes) {
        Err(fault) => Standing {
            fault: Some(fault),
            ..r
        },
        Ok(Progress::More) => Standing { have: e, ..r },
        Ok(Progress::Whole) => match body::replay(words, strings, out, &buf[4..e - 8]) {
            Err(fault) => Standing {
                fault: Some(fault),
                ..r
            },
            Ok(()) => Standing {
                have: 0,
                count: r.count + 1,
                at: r.at + e as u64,
                last: r.at,
                fault: None,
            },
        },
    }
}

// A piece of the book, of any length.
pub fn feed(
    r: Standing,
    buf: &mut [u8],
    words: &mut Words,
    strings: &mut Strings,
    out: &mut [u8],
    piece: &[u8],
) -> Standing
    requires { Sound r buf.old × (r.at + r.have + length piece.now < 2 ^ 63) × (length out.old ≡ output_minimum) }
    ensures { Turned result r buf.old buf.new (memory words.old strings.old) (memory words.new strings.new) piece.now }
{
    let mut s = r;
    let mut rest = piece;
    // Kept: each turn takes as much of the piece as is wanted; nothing is counted.
    while s.fault.is_none() && !rest.is_empty() {
        let n = verifier::portion(buf, s.have, rest.len());
        let (bytes, more) = rest.split_at(n);
        s = turn(s, buf, words, strings, out, bytes);
        rest = more;
    }
    s
}
