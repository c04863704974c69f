// A body, read: the event behind its tag, and the frames behind the event.
ghost use Rattle.record.specs.Layout.{by_tag, decode};
ghost use Rattle.record.specs.Seen.{Reads};

use crate::events::{Event, MOST_DELIVERED, MOST_SHOWN};
use crate::rows;
use journal::reader::BODY_LIMIT;
use wire::number;

// END, as a byte, is 0 or 1.
const MOST_END: u8 = 1;

// The event that stands behind a tag.
fn read_event(tag: u8, s: &[u8]) -> Option<(Event<'_>, &[u8])>
    ensures { Reads result (by_tag tag s.now) }
{
    match tag {
        0 => {
            let (connection, frames) = rows::number4(s)?;
            Some((Event::Opening { connection }, frames))
        }
        1 => {
            let (connection, rest) = rows::number4(s)?;
            let (bytes, frames) = rows::row(rest, MOST_DELIVERED)?;
            Some((Event::Delivery { connection, bytes }, frames))
        }
        2 => {
            let (connection, frames) = rows::number4(s)?;
            Some((Event::Cut { connection }, frames))
        }
        3 => {
            if s.len() < 8 {
                return None;
            }
            let milliseconds = number::number::<8>(s, 0);
            Some((Event::Clock { milliseconds }, &s[8..]))
        }
        4 => {
            let (session, rest) = rows::number4(s)?;
            let (end, rest) = rest.split_first()?;
            if *end > MOST_END {
                return None;
            }
            let (payload, rest) = rows::row(rest, BODY_LIMIT)?;
            let (shown, frames) = rows::row(rest, MOST_SHOWN)?;
            let end = *end != 0;
            Some((
                Event::Answer {
                    session,
                    end,
                    payload,
                    shown,
                },
                frames,
            ))
        }
        5 => {
            let (byte, frames) = s.split_first()?;
            Some((Event::Status { byte: *byte }, frames))
        }
        6 => {
            let (session, frames) = rows::number4(s)?;
            Some((Event::WatchOff { session }, frames))
        }
        7 => {
            let (session, rest) = rows::number4(s)?;
            let (limit, frames) = rows::number4(rest)?;
            Some((Event::WatchAbove { session, limit }, frames))
        }
        8 => {
            let (session, rest) = rows::number4(s)?;
            let (low, rest) = rows::number4(rest)?;
            let (high, frames) = rows::number4(rest)?;
            Some((Event::WatchOutside { session, low, high }, frames))
        }
        9 => {
            let (text, frames) = rows::row(s, BODY_LIMIT)?;
            Some((Event::Patterns { text }, frames))
        }
        _ => None,
    }
}

// What stands in a body, or that it has no layout.
pub fn read(s: &[u8]) -> Option<(Event<'_>, &[u8])>
    ensures { Reads result (decode s.now) }
{
    let (tag, rest) = s.split_first()?;
    read_event(*tag, rest)
}
