// `verify FILE VENDOR MODE`: the verdict over a journal, in one line. The file is read in pieces; its bytes are judged by crate replay.
#![tactic(auto)]

mod arguments;
mod say;

ghost use Rattle.std.specs.Prelude.{◌≤◌, IfSome, length, ◌≡◌};
ghost use Rattle.journal.specs.Journal.{body_limit};
ghost use Rattle.model.specs.Sizes.{output_minimum};
ghost use Rattle.state.specs.View.{memory};
ghost use Rattle.verify.specs.Judged.{Judged, entry_limit, piece_limit};

use state::sizes;
use state::sizes::{Strings, Words};
use std::io::Read;
use std::rt::Files;
use std::{fs, io, str};
use verifier::Standing;

// the buffers: with words, strings, output and path below 64 KiB (docs/DECISIONS.md has the sum)
const PIECE: usize = 16384;

const OUTPUT: usize = 2048;

const LONGEST_PATH: usize = 4096;

// A proved loop has to end, and nothing says that a file does: at most so many pieces, 2^61 bytes, are read.
const TURNS: u64 = 140737488355328;

// Reads piece after piece, up to the end or to the first fault. Of a file that cannot be read it says so, and answers nothing.
fn judge(
    errors: &impl Print,
    file: &mut impl Read,
    path: &[u8],
    buf: &mut [u8],
    words: &mut Words,
    strings: &mut Strings,
    out: &mut [u8],
    piece: &mut [u8],
) -> Option<Standing>
    requires { (length buf.old ≡ entry_limit) × (length out.old ≡ output_minimum) × (length piece.old ≤ piece_limit) }
    ensures { IfSome result (λ r. Judged r buf.new (memory words.old strings.old) (memory words.new strings.new)) }
{
    let mut r = verifier::begin();
    for _ in 0..TURNS {
        let n = match file.read(piece) {
            Ok(n) => n,
            Err(e) => {
                say::unreadable(errors, path, &e);
                return None;
            }
        };
        if n == 0 {
            return Some(r);
        }
        r = replay::feed(r, buf, words, strings, out, &piece[..n]);
        if r.fault.is_some() {
            return Some(r);
        }
    }
    say::endless(errors);
    None
}

// A path that is not UTF-8 opens nothing.
fn open<R: Files>(files: &R, path: &[u8]) -> io::Result<R::File> {
    match str::from_utf8(path) {
        Ok(text) => fs::open(files, text),
        Err(_) => Err(io::Error::from(io::ErrorKind::InvalidFilename)),
    }
}

fn judge_file<R: Files + Print>(
    rt: &R,
    errors: &impl Print,
    path: &[u8],
    vendor: u16,
    overlap: bool,
) -> io::Result<()> {
    let mut file = match open(rt, path) {
        Ok(file) => file,
        Err(e) => {
            say::unreadable(errors, path, &e);
            return Ok(());
        }
    };
    let mut words = [0; sizes::WORDS];
    let mut strings = [0; sizes::STRINGS];
    let mut buf = [0; verifier::ENTRY_LIMIT];
    let mut out = [0; OUTPUT];
    let mut piece = [0; PIECE];
    server::hislip_new(&mut words, &mut strings, vendor, u8::from(overlap));
    let judged = judge(
        errors,
        &mut file,
        path,
        &mut buf,
        &mut words,
        &mut strings,
        &mut out,
        &mut piece,
    );
    match judged {
        Some(r) => say::verdict(rt, r.count, verifier::verdict(r, &buf)),
        None => Ok(()),
    }
}

fn main(rt: HostRuntime) -> io::Result<()> {
    let errors = rt.stderr();
    let mut path = [0u8; LONGEST_PATH];
    match arguments::read(&rt, &mut path) {
        Ok(a) => judge_file(&rt, &errors, &path[..a.length], a.vendor, a.overlap),
        Err(e) => {
            say::usage(&errors, e);
            Ok(())
        }
    }
}
