// CRC-32 as IEEE 802.3 has it, in its reflected form (edb88320 hex): the register begins as ffffffff hex and is turned round at the end. Eight
// bytes a step, by the eight rows of a table (`crc_table`); what is left of a run, a byte a step.
#![tactic(auto)]

ghost use Rattle.crc.specs.Crc.{byte_step, crc_of, feed_of, finish_of, first_register};
ghost use Rattle.std.specs.Prelude.{◌≤◌, length, ◌≡◌};

// The register after one byte more.
fn step(c: u32, b: u8) -> u32
    ensures { result ≡ byte_step c b }
{
    let x = c ^ b as u32;
    crc_table::entry(0, x) ^ (x / 256)
}

// The register after eight bytes more: four of them meet the register, the others stand alone. Each is looked up in a row of its own.
// Kept: eight calls. A loop over the eight numbers was tried: three instructions more a step.
fn step8(c: u32, b: &[u8; 8]) -> u32
    ensures { result ≡ feed_of c b.now }
{
    let x = c ^ u32::from_le_bytes([b[0], b[1], b[2], b[3]]);
    crc_table::entry(7, x)
        ^ crc_table::entry(6, x / 256)
        ^ crc_table::entry(5, x / 65536)
        ^ crc_table::entry(4, x / 16777216)
        ^ crc_table::entry(3, b[4] as u32)
        ^ crc_table::entry(2, b[5] as u32)
        ^ crc_table::entry(1, b[6] as u32)
        ^ crc_table::entry(0, b[7] as u32)
}

// Up to seven bytes: a bound that the compiler sees makes the loop a row of steps.
fn feed_ones(c: u32, bytes: &[u8]) -> u32
    requires { length bytes.now ≤ 7 }
    ensures { result ≡ feed_of c bytes.now }
{
    let mut x = c;
    for i in 0..7 {
        if i == bytes.len() {
            return x;
        }
        x = step(x, bytes[i]);
    }
    x
}

// The register before the first byte.
pub fn start() -> u32
    ensures { result ≡ first_register }
{
    0xffffffff
}

// The register after some bytes more, so that a run may come in parts.
pub fn feed(c: u32, bytes: &[u8]) -> u32
    ensures { result ≡ feed_of c bytes.now }
{
    let (eights, left) = bytes.as_chunks::<8>();
    let mut x = c;
    for eight in eights {
        x = step8(x, eight);
    }
    feed_ones(x, left)
}

// The sum that a register stands for.
pub fn finish(c: u32) -> u32
    ensures { result ≡ finish_of c }
{
    c ^ 0xffffffff
}

// The sum of all the bytes at once.
pub fn crc32(bytes: &[u8]) -> u32
    ensures { result ≡ crc_of bytes.now }
{
    finish(feed(start(), bytes))
}
