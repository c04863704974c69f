// The examples in the paper's order, each under its own words.
ghost use Rattle.std.specs.Prelude.{◌≤◌, length};
ghost use Rattle.model.specs.Sizes.{string_limit};

use crate::{calls, text};
use state::sizes::{Strings, Words};
use std::io;
use wire::message_id::MessageId;

fn heading(rt: &impl Print, example: &[u8]) -> io::Result<()> {
    text::say(rt, b"\n")?;
    text::say(rt, example)?;
    text::say(rt, b"\n")
}

// A fresh server, vendor "AA", that prefers synchronized mode.
fn fresh(
    rt: &impl Print,
    words: &mut Words,
    strings: &mut Strings,
    example: &[u8],
) -> io::Result<()> {
    heading(rt, example)?;
    server::hislip_new(words, strings, 0x4141, 0);
    Ok(())
}

// The same with session A, on connections 0 and 1.
fn with_a(
    rt: &impl Print,
    words: &mut Words,
    strings: &mut Strings,
    example: &[u8],
) -> io::Result<()> {
    fresh(rt, words, strings, example)?;
    calls::session(rt, words, strings, b"A", 0, 1)
}

// The same with session B too, on connections 2 and 3.
fn with_a_and_b(
    rt: &impl Print,
    words: &mut Words,
    strings: &mut Strings,
    example: &[u8],
) -> io::Result<()> {
    with_a(rt, words, strings, example)?;
    calls::session(rt, words, strings, b"B", 2, 3)
}

// Data with a payload of so many bytes, all 7.
fn long_data(
    rt: &impl Print,
    words: &mut Words,
    strings: &mut Strings,
    what: &[u8],
    id: MessageId,
    count: usize,
) -> io::Result<()>
    requires { count ≤ 1025 }
{
    let mut frame = [7; 1042];
    wire::frame::put_header(&mut frame, 0, 0, 6, 0, id.number, count as u64);
    let end = 17 + count;
    calls::deliver(rt, words, strings, 0, what, &frame[1..end])
}

// AsyncLock: a request with a timeout and a string.
fn lock(
    rt: &impl Print,
    words: &mut Words,
    strings: &mut Strings,
    connection: u32,
    what: &[u8],
    timeout: u32,
    string: &[u8],
) -> io::Result<()>
    requires { length string.now ≤ string_limit }
{
    calls::send(rt, words, strings, connection, what, 4, 1, timeout, string)
}

fn exclusive_for_a(rt: &impl Print, words: &mut Words, strings: &mut Strings) -> io::Result<()> {
    lock(rt, words, strings, 1, b"A exclusive", 0, b"")
}

// AsyncLock: A's release. It names fffffefe, for A has sent no message yet.
fn release(rt: &impl Print, words: &mut Words, strings: &mut Strings) -> io::Result<()> {
    calls::send(rt, words, strings, 1, b"A releases", 4, 0, 0xfffffefe, b"")
}

fn three_releases(rt: &impl Print, words: &mut Words, strings: &mut Strings) -> io::Result<()> {
    release(rt, words, strings)?;
    release(rt, words, strings)?;
    release(rt, words, strings)
}

fn data_of_b(rt: &impl Print, words: &mut Words, strings: &mut Strings) -> io::Result<()> {
    let id = MessageId::first();
    calls::send(rt, words, strings, 2, b"B's Data", 6, 0, id.number, b"cal")
}

pub fn initialize(rt: &impl Print, words: &mut Words, strings: &mut Strings) -> io::Result<()> {
    fresh(
        rt,
        words,
        strings,
        b"Vendor \"AA\", connection 0: 48 53 00 00 01 00 41 41 and eight zeros. Whole output: 00 48 53 01 00 01 00 00 01 and eight zeros.",
    )?;
    calls::open(rt, words, strings, 0)?;
    calls::send(rt, words, strings, 0, b"Initialize", 0, 0, 0x01004141, b"")
}

pub fn async_initialize(
    rt: &impl Print,
    words: &mut Words,
    strings: &mut Strings,
) -> io::Result<()> {
    heading(
        rt,
        b"Then on connection 1 48 53 11 00 00 00 00 01 and eight zeros gives 01 48 53 12 00 00 00 41 41 and eight zeros.",
    )?;
    calls::open(rt, words, strings, 1)?;
    calls::send(rt, words, strings, 1, b"AsyncInitialize", 17, 0, 1, b"")
}

pub fn short_header(rt: &impl Print, words: &mut Words, strings: &mut Strings) -> io::Result<()> {
    with_a(rt, words, strings, b"15 header bytes: more needed.")?;
    let header = b"HS\x06\x00\xff\xff\xff\x00\x00\x00\x00\x00\x00\x00\x00";
    calls::deliver(rt, words, strings, 0, b"Data without its last byte", header)
}

pub fn wrong_prologue(rt: &impl Print, words: &mut Words, strings: &mut Strings) -> io::Result<()> {
    with_a(
        rt,
        words,
        strings,
        b"Sixteen bytes that begin \"HT\": FatalError 1.",
    )?;
    let bytes = b"HT\x00\x00\x00\x00\x00\x00\x00\x00\x00\x00\x00\x00\x00\x00";
    calls::deliver(rt, words, strings, 0, b"in a session", bytes)?;
    calls::open(rt, words, strings, 9)?;
    calls::deliver(rt, words, strings, 9, b"without one", bytes)
}

pub fn lengths(rt: &impl Print, words: &mut Words, strings: &mut Strings) -> io::Result<()> {
    with_a(rt, words, strings, b"Length 1,024 accepted, 1,025 Error 4.")?;
    let id = MessageId::first();
    long_data(rt, words, strings, b"Data, 1,024", id, 1024)?;
    long_data(rt, words, strings, b"Data, 1,025", id.next(), 1025)?;
    let payload = [7; 1025];
    calls::deliver(rt, words, strings, 0, b"its payload", &payload)
}

pub fn exclusive(rt: &impl Print, words: &mut Words, strings: &mut Strings) -> io::Result<()> {
    with_a_and_b(
        rt,
        words,
        strings,
        b"A exclusive; B exclusive, timeout 0: 0. B's Data is held.",
    )?;
    exclusive_for_a(rt, words, strings)?;
    lock(rt, words, strings, 3, b"B exclusive, timeout 0", 0, b"")?;
    data_of_b(rt, words, strings)
}

pub fn shared(rt: &impl Print, words: &mut Words, strings: &mut Strings) -> io::Result<()> {
    with_a_and_b(
        rt,
        words,
        strings,
        b"A and B shared \"cal\": 1, 1. C \"Cal\", timeout 0: 0. A exclusive: 1; B is then held. A releases three times: 1, 2, 3.",
    )?;
    calls::session(rt, words, strings, b"C", 4, 5)?;
    lock(rt, words, strings, 1, b"A shared \"cal\"", 0, b"cal")?;
    lock(rt, words, strings, 3, b"B shared \"cal\"", 0, b"cal")?;
    lock(rt, words, strings, 5, b"C \"Cal\", timeout 0", 0, b"Cal")?;
    exclusive_for_a(rt, words, strings)?;
    data_of_b(rt, words, strings)?;
    three_releases(rt, words, strings)
}

pub fn deadline(rt: &impl Print, words: &mut Words, strings: &mut Strings) -> io::Result<()> {
    with_a_and_b(
        rt,
        words,
        strings,
        b"At clock 1,000 B waits 500: still waiting at 1,499, answered 0 at 1,500.",
    )?;
    exclusive_for_a(rt, words, strings)?;
    calls::clock(rt, words, strings, 1000)?;
    lock(rt, words, strings, 3, b"B waits 500", 500, b"")?;
    calls::clock(rt, words, strings, 1499)?;
    calls::clock(rt, words, strings, 1500)
}

pub fn status(rt: &impl Print, words: &mut Words, strings: &mut Strings) -> io::Result<()> {
    with_a(
        rt,
        words,
        strings,
        b"Status 41 hex with an answer sent: 51.",
    )?;
    calls::status(rt, words, strings, 0x41)?;
    let id = MessageId::first();
    calls::send(rt, words, strings, 0, b"A asks", 7, 0, id.number, b"READ?")?;
    calls::answer(rt, words, strings, 1, b"42")?;
    calls::send(
        rt,
        words,
        strings,
        1,
        b"status query",
        21,
        0,
        id.number,
        b"",
    )
}

pub fn other_types(rt: &impl Print, words: &mut Words, strings: &mut Strings) -> io::Result<()> {
    with_a(rt, words, strings, b"Type 39: Error 1; type 128: Error 3.")?;
    calls::send(rt, words, strings, 0, b"type 39", 39, 0, 0, b"")?;
    calls::send(rt, words, strings, 0, b"type 128", 128, 0, 0, b"")
}
