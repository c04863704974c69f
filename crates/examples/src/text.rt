// What a person reads: words, numbers, bytes in hex, the frames of an output.
ghost use Rattle.std.specs.Prelude.{◌<◌, ◌≤◌, length};

use std::io;

pub fn say(rt: &impl Print, s: &[u8]) -> io::Result<()> {
    rt.write_all(s)
}

// Words, then a number.
pub fn say_number(rt: &impl Print, s: &[u8], n: u64) -> io::Result<()> {
    say(rt, s)?;
    print!(rt; "{n}")
}

// Words, then a byte in hex.
pub fn say_byte(rt: &impl Print, s: &[u8], b: u8) -> io::Result<()> {
    say(rt, s)?;
    print!(rt; "{b:02x}")
}

fn first(rt: &impl Print, s: &[u8], n: usize) -> io::Result<()>
    requires { n ≤ length s.now }
{
    for b in &s[..n] {
        say_byte(rt, b" ", *b)?;
    }
    Ok(())
}

// Bytes, each after a space; of a long row the first sixteen, and how many follow.
pub fn bytes(rt: &impl Print, s: &[u8]) -> io::Result<()> {
    if s.len() <= 32 {
        return first(rt, s, s.len());
    }
    first(rt, s, 16)?;
    say_number(rt, b" and ", (s.len() - 16) as u64)?;
    say(rt, b" more")
}

// Where the frame that begins at a place ends: a byte of connection number, sixteen of header, the payload. At the latest, at the output's end.
fn frame_end(out: &[u8], at: usize, end: usize) -> usize
    requires { (at < end) × (end ≤ length out.now) }
    ensures { (at < result) × (result ≤ end) }
{
    if end - at < 17 {
        return end;
    }
    let payload = wire::number::number::<8>(out, at + 9);
    if payload > (end - at - 17) as u64 {
        return end;
    }
    at + 17 + payload as usize
}

fn frame(rt: &impl Print, out: &[u8], at: usize, end: usize) -> io::Result<()>
    requires { (at < end) × (end ≤ length out.now) }
{
    say_number(rt, b"    to ", u64::from(out[at]))?;
    say(rt, b":")?;
    bytes(rt, &out[at + 1..end])?;
    say(rt, b"\n")
}

// The frames in the first bytes of the output, one to a line.
pub fn frames(rt: &impl Print, out: &[u8], count: u64) -> io::Result<()> {
    if count > out.len() as u64 {
        return say(rt, b"    output beyond the buffer\n");
    }
    let end = count as usize;
    let mut at = 0;
    // Kept: each turn goes on behind a frame, however long it is.
    while at < end {
        let next = frame_end(out, at, end);
        frame(rt, out, at, next)?;
        at = next;
    }
    Ok(())
}
