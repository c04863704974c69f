// One recorded event, done by the server's own function: it gives the very frames beside it, or there is a fault of parcels.
ghost use Rattle.std.specs.Prelude.{length, [], ◌≡◌};
ghost use Rattle.model.specs.Sizes.{output_minimum};
ghost use Rattle.readings.specs.Bits.{not_number};
ghost use Rattle.record.specs.Layout.{answer, clock, cut, delivery, opening, patterns, status, watch_above, watch_off, watch_outside};
ghost use Rattle.replay.specs.Replays.{Replays, byte_of, compared_of};
ghost use Rattle.state.specs.View.{memory};

use sensing::floats;
use server::{listing, watches};
use state::sizes::{Strings, Words};
use verifier::Fault;

// What a call gave, beside the frames recorded.
fn compared(refusal: u64, output: u64, out: &[u8], frames: &[u8]) -> Result<(), Fault>
    ensures { result ≡ compared_of refusal output out.now frames.now }
{
    if refusal != 0 {
        return Err(Fault::Parcels);
    }
    if output > out.len() as u64 {
        return Err(Fault::Parcels);
    }
    if &out[..output as usize] == frames {
        return Ok(());
    }
    Err(Fault::Parcels)
}

// A call that has no output.
fn silent(refusal: u64, frames: &[u8]) -> Result<(), Fault>
    ensures { result ≡ compared_of refusal 0 [] frames.now }
{
    compared(refusal, 0, &[], frames)
}

pub fn opens(
    words: &mut Words,
    strings: &mut Strings,
    connection: u32,
    frames: &[u8],
) -> Result<(), Fault>
    ensures { Replays result (opening connection) (memory words.old strings.old) (memory words.new strings.new) frames.now }
{
    let a = server::hislip_open(words, strings, connection);
    silent(a.refusal, frames)
}

pub fn delivers(
    words: &mut Words,
    strings: &mut Strings,
    out: &mut [u8],
    connection: u32,
    bytes: &[u8],
    frames: &[u8],
) -> Result<(), Fault>
    requires { length out.old ≡ output_minimum }
    ensures { Replays result (delivery connection bytes.now) (memory words.old strings.old)
        (memory words.new strings.new) frames.now }
{
    let a = server::hislip_deliver(words, strings, connection, bytes, out);
    compared(a.refusal, a.output, out, frames)
}

pub fn cuts(
    words: &mut Words,
    strings: &mut Strings,
    out: &mut [u8],
    connection: u32,
    frames: &[u8],
) -> Result<(), Fault>
    requires { length out.old ≡ output_minimum }
    ensures { Replays result (cut connection) (memory words.old strings.old) (memory words.new strings.new) frames.now }
{
    let a = server::hislip_cut(words, strings, connection, out);
    compared(a.refusal, a.output, out, frames)
}

pub fn reads_clock(
    words: &mut Words,
    strings: &mut Strings,
    out: &mut [u8],
    milliseconds: u64,
    frames: &[u8],
) -> Result<(), Fault>
    requires { length out.old ≡ output_minimum }
    ensures { Replays result (clock milliseconds) (memory words.old strings.old) (memory words.new strings.new) frames.now }
{
    let a = server::hislip_clock(words, strings, milliseconds, out);
    compared(a.refusal, a.output, out, frames)
}

pub fn answers(
    words: &mut Words,
    strings: &mut Strings,
    out: &mut [u8],
    session: u32,
    end: bool,
    payload: &[u8],
    shown: &[u8],
    frames: &[u8],
) -> Result<(), Fault>
    requires { length out.old ≡ output_minimum }
    ensures { Replays result (answer session (byte_of end) payload.now shown.now) (memory words.old strings.old)
        (memory words.new strings.new) frames.now }
{
    let a = server::hislip_answer(words, strings, session, payload, u8::from(end), shown, out);
    compared(a.refusal, a.output, out, frames)
}

pub fn sets_status(
    words: &mut Words,
    strings: &mut Strings,
    byte: u8,
    frames: &[u8],
) -> Result<(), Fault>
    ensures { Replays result (status byte) (memory words.old strings.old) (memory words.new strings.new) frames.now }
{
    server::hislip_status(words, strings, byte);
    silent(0, frames)
}

// Are the 32 bits not a number's: above the infinity, below the sign?
fn is_no_number(b: u32) -> bool
    ensures { result ≡ not_number b }
{
    b % 2147483648 > 2139095040
}

pub fn sets_off(
    words: &mut Words,
    strings: &mut Strings,
    session: u32,
    frames: &[u8],
) -> Result<(), Fault>
    ensures { Replays result (watch_off session) (memory words.old strings.old) (memory words.new strings.new) frames.now }
{
    let a = watches::hislip_watch_off(words, strings, session);
    silent(a.refusal, frames)
}

// A limit that is not a number is refused; no float has its bits.
pub fn sets_above(
    words: &mut Words,
    strings: &mut Strings,
    session: u32,
    limit: u32,
    frames: &[u8],
) -> Result<(), Fault>
    ensures { Replays result (watch_above session limit) (memory words.old strings.old) (memory words.new strings.new) frames.now }
{
    if is_no_number(limit) {
        return Err(Fault::Parcels);
    }
    let x = floats::float_of(limit as u64);
    let a = watches::hislip_watch_above(words, strings, session, x);
    silent(a.refusal, frames)
}

pub fn sets_outside(
    words: &mut Words,
    strings: &mut Strings,
    session: u32,
    low: u32,
    high: u32,
    frames: &[u8],
) -> Result<(), Fault>
    ensures { Replays result (watch_outside session low high) (memory words.old strings.old) (memory words.new strings.new) frames.now }
{
    if is_no_number(low) {
        return Err(Fault::Parcels);
    }
    if is_no_number(high) {
        return Err(Fault::Parcels);
    }
    let x = floats::float_of(low as u64);
    let y = floats::float_of(high as u64);
    let a = watches::hislip_watch_outside(words, strings, session, x, y);
    silent(a.refusal, frames)
}

pub fn sets_list(
    words: &mut Words,
    strings: &mut Strings,
    text: &[u8],
    frames: &[u8],
) -> Result<(), Fault>
    ensures { Replays result (patterns text.now) (memory words.old strings.old) (memory words.new strings.new) frames.now }
{
    let a = listing::hislip_patterns(words, strings, text);
    silent(a.refusal, frames)
}
