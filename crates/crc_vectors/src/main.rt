// Published check values of CRC-32, run on the proved code: the sum of all the bytes at once, and in two parts. What is printed is
// compared with `stdout`, which is written from the published values.

#![tactic(auto)]

use std::io;

fn sum_in_parts(bytes: &[u8]) -> u32 {
    let e = bytes.len();
    let m = e / 3;
    let c = crc::feed(crc::start(), &bytes[..m]);
    crc::finish(crc::feed(c, &bytes[m..e]))
}

fn show(rt: &impl Print, name: &[u8], bytes: &[u8]) -> io::Result<()> {
    let whole = crc::crc32(bytes);
    let parts = sum_in_parts(bytes);
    print!(rt; "{whole:08x} {parts:08x} ")?;
    rt.write_all(name)?;
    rt.write_all(b"\n")
}

fn show_text(rt: &impl Print, text: &[u8]) -> io::Result<()> {
    show(rt, text, text)
}

fn main(rt: HostRuntime) -> io::Result<()> {
    rt.write_all(b"CRC-32: at once, in two parts, of what\n")?;
    show_text(&rt, b"123456789")?;
    show(&rt, b"(no bytes)", b"")?;
    show_text(&rt, b"a")?;
    show_text(&rt, b"abc")?;
    show_text(&rt, b"message digest")?;
    show_text(&rt, b"abcdefghijklmnopqrstuvwxyz")?;
    show_text(
        &rt,
        b"ABCDEFGHIJKLMNOPQRSTUVWXYZabcdefghijklmnopqrstuvwxyz0123456789",
    )?;
    show_text(
        &rt,
        b"12345678901234567890123456789012345678901234567890123456789012345678901234567890",
    )?;
    show_text(&rt, b"The quick brown fox jumps over the lazy dog")?;
    show(&rt, b"(32 bytes 00)", &[0; 32])?;
    show(&rt, b"(32 bytes ff)", &[255; 32])
}
