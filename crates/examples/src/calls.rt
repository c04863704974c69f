// One call of the server, then its answer and its output in words.
ghost use Rattle.std.specs.Prelude.{◌≤◌, length};
ghost use Rattle.model.specs.Sizes.{payload_limit};

use crate::text;
use server::Done;
use sessions::Delivery;
use state::sizes::{Strings, Words};
use std::io;

fn accepted(rt: &impl Print, refusal: u64) -> io::Result<()> {
    if refusal == 0 {
        return text::say(rt, b"accepted\n");
    }
    text::say_number(rt, b"refused ", refusal)?;
    text::say(rt, b"\n")
}

fn done(rt: &impl Print, answer: Done, out: &[u8]) -> io::Result<()> {
    text::say(rt, b": ")?;
    accepted(rt, answer.refusal)?;
    text::frames(rt, out, answer.output)
}

fn outcome(rt: &impl Print, n: u64) -> io::Result<()> {
    match n {
        0 => text::say(rt, b"more needed"),
        1 => text::say(rt, b"skipped"),
        2 => text::say(rt, b"held"),
        3 => text::say(rt, b"ignored"),
        4 => text::say(rt, b"Error sent"),
        5 => text::say(rt, b"closed"),
        6 => text::say(rt, b"acted on"),
        _ => text::say_number(rt, b"outcome ", n),
    }
}

// What a delivery answers: the outcome, the session's number unless it is 0, the bytes taken.
fn told(rt: &impl Print, answer: Delivery) -> io::Result<()> {
    text::say(rt, b"    ")?;
    if answer.refusal != 0 {
        return accepted(rt, answer.refusal);
    }
    outcome(rt, answer.outcome)?;
    if answer.session != 0 {
        text::say_number(rt, b", session ", answer.session)?;
    }
    text::say_number(rt, b", ", answer.taken)?;
    text::say(rt, b" taken\n")
}

pub fn open(
    rt: &impl Print,
    words: &mut Words,
    strings: &mut Strings,
    connection: u32,
) -> io::Result<()> {
    text::say_number(rt, b"  open ", connection as u64)?;
    let answer = server::hislip_open(words, strings, connection);
    done(rt, answer, b"")
}

fn asked(rt: &impl Print, connection: u32, what: &[u8], bytes: &[u8]) -> io::Result<()> {
    text::say_number(rt, b"  deliver ", connection as u64)?;
    text::say(rt, b" (")?;
    text::say(rt, what)?;
    text::say(rt, b"):")?;
    text::bytes(rt, bytes)?;
    text::say(rt, b"\n")
}

pub fn deliver(
    rt: &impl Print,
    words: &mut Words,
    strings: &mut Strings,
    connection: u32,
    what: &[u8],
    bytes: &[u8],
) -> io::Result<()> {
    asked(rt, connection, what, bytes)?;
    let mut out = [0; 2048];
    let answer = server::hislip_deliver(words, strings, connection, bytes, &mut out);
    told(rt, answer)?;
    text::frames(rt, &out, answer.output)
}

// A message of a client: it is written as a frame, and what follows the connection number is delivered.
pub fn send(
    rt: &impl Print,
    words: &mut Words,
    strings: &mut Strings,
    connection: u32,
    what: &[u8],
    kind: u8,
    code: u8,
    param: u32,
    payload: &[u8],
) -> io::Result<()>
    requires { length payload.now ≤ payload_limit }
{
    let mut frame = [0; 1041];
    wire::frame::put_message(&mut frame, 0, 0, kind, code, param, payload);
    let end = 17 + payload.len();
    deliver(rt, words, strings, connection, what, &frame[1..end])
}

pub fn clock(
    rt: &impl Print,
    words: &mut Words,
    strings: &mut Strings,
    milliseconds: u64,
) -> io::Result<()> {
    text::say_number(rt, b"  clock ", milliseconds)?;
    let mut out = [0; 2048];
    let answer = server::hislip_clock(words, strings, milliseconds, &mut out);
    done(rt, answer, &out)
}

pub fn status(
    rt: &impl Print,
    words: &mut Words,
    strings: &mut Strings,
    byte: u8,
) -> io::Result<()> {
    text::say_byte(rt, b"  status ", byte)?;
    text::say(rt, b"\n")?;
    server::hislip_status(words, strings, byte);
    Ok(())
}

// The instrument answers a session, with END.
pub fn answer(
    rt: &impl Print,
    words: &mut Words,
    strings: &mut Strings,
    session: u32,
    payload: &[u8],
) -> io::Result<()> {
    text::say_number(rt, b"  answer ", session as u64)?;
    text::say(rt, b" with END, bytes")?;
    text::bytes(rt, payload)?;
    let mut out = [0; 2048];
    let answer = server::hislip_answer(words, strings, session, payload, 1, b"", &mut out);
    text::say(rt, b": ")?;
    accepted(rt, answer.refusal)?;
    text::frames(rt, &out, answer.output)
}

fn opened(
    rt: &impl Print,
    name: &[u8],
    connection: u32,
    other: u32,
    session: u64,
) -> io::Result<()> {
    text::say(rt, b"  ")?;
    text::say(rt, name)?;
    text::say_number(rt, b" opens on ", connection as u64)?;
    text::say_number(rt, b" and ", other as u64)?;
    text::say_number(rt, b": session ", session)?;
    text::say(rt, b"\n")
}

// A session opens on two connections; the first two examples show it in full.
pub fn session(
    rt: &impl Print,
    words: &mut Words,
    strings: &mut Strings,
    name: &[u8],
    connection: u32,
    other: u32,
) -> io::Result<()> {
    let mut out = [0; 2048];
    server::hislip_open(words, strings, connection);
    server::hislip_open(words, strings, other);
    let first = b"HS\x00\x00\x01\x00AA\x00\x00\x00\x00\x00\x00\x00\x00";
    server::hislip_deliver(words, strings, connection, first, &mut out);
    // The SessionID of the reply: the lower half of the parameter, behind the frame's connection number.
    let second = [72, 83, 17, 0, 0, 0, out[7], out[8], 0, 0, 0, 0, 0, 0, 0, 0];
    let answer = server::hislip_deliver(words, strings, other, &second, &mut out);
    opened(rt, name, connection, other, answer.session)
}
