// The verifier without the server: what the bytes had from a place on come to. Whoever has the server goes on from
// a whole entry: its layout (crate record), its frames beside the server's.
#![tactic(auto)]

ghost use Rattle.std.specs.Prelude.{◌+◌, ◌-◌, ◌≤◌, ◌<◌, min, length, take, ◌≡◌};
ghost use Rattle.verifier.specs.Framing.{Fed, end_of, framing_of};
ghost use Rattle.verifier.specs.Standing.{ending_of, start, wanted_of};

use journal::reader;
use std::error::Error;
use std::fmt;
use wire::{frame, number};

const BODY_LIMIT: u64 = reader::BODY_LIMIT as u64;

// length, distance and sum of an entry, 4 bytes each; the closing trailer has as many
const AROUND: usize = 12;

// a buffer of so many bytes holds every entry
pub const ENTRY_LIMIT: usize = reader::BODY_LIMIT + AROUND;

// "BACK" as a number
const BACK: u64 = 1111573323;

// What is wrong with a book: an entry's length, its distance from the entry before, its sum, its layout, its frames, or the closing
// trailer. Own is a caller's: a number by which it breaks a reading off itself. No function here finds it, verdict gives it back, and it
// reads as the trailer's.
#[derive(Clone, Copy, Debug, PartialEq, Eq)]
pub enum Fault {
    Length,
    Distance,
    Sum,
    Layout,
    Parcels,
    Trailer,
    Own(u64),
}

impl fmt::Display for Fault {
    fn fmt<W: fmt::Write>(&self, f: &mut fmt::Formatter<W>) -> fmt::Result {
        let words = match self {
            Fault::Length => "length",
            Fault::Distance => "distance",
            Fault::Sum => "sum",
            Fault::Layout => "layout",
            Fault::Parcels => "parcels",
            Fault::Trailer | Fault::Own(_) => "closing trailer",
        };
        f.write_str(words)
    }
}

impl Error for Fault {}

// What bytes without a fault had come to: more are needed, or they are a whole entry with right distance and sum.
#[derive(Clone, Copy, Debug, PartialEq, Eq)]
pub enum Progress {
    More,
    Whole,
}

pub fn framing(s: &[u8]) -> Result<Progress, Fault>
    ensures { result ≡ framing_of s.now }
{
    if s.len() <= 3 {
        return Ok(Progress::More);
    }
    let n = number::number::<4>(s, 0);
    if n == BACK {
        if s.len() <= AROUND {
            return Ok(Progress::More);
        }
        return Err(Fault::Trailer);
    }
    if n > BODY_LIMIT {
        return Err(Fault::Length);
    }
    let e = n as usize;
    if s.len() < e + AROUND {
        return Ok(Progress::More);
    }
    if number::number::<4>(s, e + 4) != n + 4 {
        return Err(Fault::Distance);
    }
    let t = e + 4;
    let sum = crc::crc32(&s[..t]) as u64;
    if number::number::<4>(s, e + 8) != sum {
        return Err(Fault::Sum);
    }
    Ok(Progress::Whole)
}

// The end of the book: accepted, or the fault.
pub fn ending(s: &[u8], last: u64, count: u64) -> Result<(), Fault>
    ensures { result ≡ end_of s.now last count }
{
    if s.len() < 4 {
        return Err(Fault::Length);
    }
    if number::number::<4>(s, 0) != BACK {
        return Err(Fault::Length);
    }
    if s.len() != AROUND {
        return Err(Fault::Trailer);
    }
    if number::number::<4>(s, 4) != last {
        return Err(Fault::Trailer);
    }
    if number::number::<4>(s, 8) != count {
        return Err(Fault::Trailer);
    }
    Ok(())
}

// Bytes more: they are put behind those had, and `framing` tells what they come to.
pub fn feed(buf: &mut [u8], have: usize, bytes: &[u8]) -> Result<Progress, Fault>
    requires { have + length bytes.now ≤ length buf.old }
    ensures { Fed result have bytes.now buf.old buf.new }
{
    frame::put_bytes(buf, have, bytes);
    let e = have + bytes.len();
    framing(&buf[..e])
}

// Where a reading stands: bytes had from this place on, entries passed, the offset of this place, that of the entry before it, and the
// fault, if there is one so far. The bytes had stand in a lent buffer.
#[derive(Clone, Copy)]
pub struct Standing {
    pub have: usize,
    pub count: u64,
    pub at: u64,
    pub last: u64,
    pub fault: Option<Fault>,
}

// A new reading.
pub fn begin() -> Standing
    ensures { result ≡ start }
{
    Standing {
        have: 0,
        count: 0,
        at: 0,
        last: 0,
        fault: None,
    }
}

// How many bytes from a place on decide what it comes to.
fn wanted(s: &[u8]) -> u64
    ensures { result ≡ wanted_of s.now }
{
    if s.len() <= 3 {
        return 4;
    }
    let n = number::number::<4>(s, 0);
    if n == BACK {
        return AROUND as u64 + 1;
    }
    n + AROUND as u64
}

// How many of the next bytes are put at once: as many as are wanted, or all.
pub fn portion(buf: &[u8], have: usize, left: usize) -> usize
    requires { (have ≤ length buf.now) × (have < wanted_of (take have buf.now)) }
    ensures { result ≡ min (wanted_of (take have buf.now) - have) left }
{
    left.min(wanted(&buf[..have]) as usize - have)
}

// The end of the book: accepted, or the fault.
pub fn verdict(r: Standing, buf: &[u8]) -> Result<(), Fault>
    requires { r.fault ≡ None → r.have ≤ length buf.now }
    ensures { result ≡ ending_of r buf.now }
{
    if let Some(fault) = r.fault {
        return Err(fault);
    }
    ending(&buf[..r.have], r.last, r.count)
}
