// How bodies begin: the tag, then the event's numbers, highest byte first.
ghost use Rattle.wire.specs.Field.{field};
ghost use Rattle.std.specs.Prelude.{[], ◌∷◌, ◌++◌, ◌+◌, ◌≤◌, eqb, length, take, cond, not, ◌≡◌};
ghost use Rattle.entries.specs.Tags.{tag_of};
ghost use Rattle.record.specs.Layout.{most_shown};

use record::events::MOST_SHOWN;
use wire::{frame, number};

// Which event a body has, by its first byte.
#[derive(Clone, Copy, Debug, PartialEq, Eq)]
pub enum Tag {
    Opening = 0,
    Delivery = 1,
    Cut = 2,
    Clock = 3,
    Answer = 4,
    Status = 5,
    WatchOff = 6,
    WatchAbove = 7,
    WatchOutside = 8,
    Patterns = 9,
}

impl From<Tag> for u8 {
    ghost from_gives = { λ tag byte. byte ≡ tag_of tag };

    fn from(tag: Tag) -> u8 {
        tag as u8
    }
}

// One byte.
// Kept: byte, one, two, triple, long and three, a function for each row of widths: the length of an array is a part of its type, and no type
// adds up widths ([u8; N + 1] is not in Rattle).
pub fn byte(tag: Tag, x: u64) -> [u8; 2]
    ensures { result ≡ tag_of tag ∷ field 1 x }
{
    let [.., a] = x.to_be_bytes();
    [u8::from(tag), a]
}

// A number of 4 bytes.
pub fn one(tag: Tag, x: u64) -> [u8; 5]
    ensures { result ≡ tag_of tag ∷ field 4 x }
{
    let [.., a, b, c, d] = x.to_be_bytes();
    [u8::from(tag), a, b, c, d]
}

// Two of them.
pub fn two(tag: Tag, x: u64, y: u64) -> [u8; 9]
    ensures { result ≡ tag_of tag ∷ (field 4 x ++ field 4 y) }
{
    let [.., a, b, c, d] = x.to_be_bytes();
    let [.., e, f, g, h] = y.to_be_bytes();
    [u8::from(tag), a, b, c, d, e, f, g, h]
}

// Three of them.
pub fn triple(tag: Tag, x: u64, y: u64, z: u64) -> [u8; 13]
    ensures { result ≡ tag_of tag ∷ (field 4 x ++ (field 4 y ++ field 4 z)) }
{
    let [.., a, b, c, d] = x.to_be_bytes();
    let [.., e, f, g, h] = y.to_be_bytes();
    let [.., i, j, k, l] = z.to_be_bytes();
    [u8::from(tag), a, b, c, d, e, f, g, h, i, j, k, l]
}

// A number of 8 bytes.
pub fn long(tag: Tag, x: u64) -> [u8; 9]
    ensures { result ≡ tag_of tag ∷ field 8 x }
{
    let [a, b, c, d, e, f, g, h] = x.to_be_bytes();
    [u8::from(tag), a, b, c, d, e, f, g, h]
}

// A number of 4 bytes, one of 1, one of 4.
pub fn three(tag: Tag, x: u64, y: u64, z: u64) -> [u8; 10]
    ensures { result ≡ tag_of tag ∷ (field 4 x ++ (field 1 y ++ field 4 z)) }
{
    let [.., a, b, c, d] = x.to_be_bytes();
    let [.., e] = y.to_be_bytes();
    let [.., f, g, h, i] = z.to_be_bytes();
    [u8::from(tag), a, b, c, d, e, f, g, h, i]
}

// 1 unless the byte is 0: END as a body has it.
pub fn bit(end: u8) -> u64
    ensures { result ≡ cond (not (eqb end 0)) 1 0 }
{
    u64::from(end != 0)
}

// The bytes shown with an answer: how many, then they.
pub fn row(s: &[u8]) -> [u8; MOST_SHOWN + 4]
    requires { length s.now ≤ most_shown }
    ensures { (length result ≡ most_shown + 4) × (take (4 + length s.now) result ≡ field 4 (length s.now) ++ s.now) }
{
    let mut b = [0; MOST_SHOWN + 4];
    number::put::<4>(&mut b, 0, s.len() as u64);
    frame::put_bytes(&mut b, 4, s);
    b
}
