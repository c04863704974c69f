// The server: the events in code, and the calls that a host makes (crate hislip_c exports them to C).
#![tactic(auto)]

ghost use Rattle.model.specs.Interface.{Event, Event.answer, Event.clock, Event.cut, Event.delivery, Event.opening};
ghost use Rattle.model.specs.Interface.Reply.{done};
ghost use Rattle.model.specs.Post.{Post};
ghost use Rattle.server.specs.Calls.{Delivered};
ghost use Rattle.server.specs.Answers.{Gives, refused_at};
ghost use Rattle.server.specs.Events.{Called, Fresh, Replied, done_told};
ghost use Rattle.state.specs.Tidy.{Tidy};
ghost use Rattle.state.specs.View.{memory, view};
ghost use Rattle.std.specs.Prelude.{length, eqb, not, List, [], ◌≡◌, ℕ, ◌<◌, ◌≤◌};
ghost use Rattle.model.specs.Sizes.{output_minimum, payload_limit, session_limit};
ghost use Rattle.state.specs.Layout.{STRINGS, WORDS};

pub mod listing;
pub mod watches;

use delivery::deliver;
use exchanges::{events, interrupted};
use holding::waiting;
use sessions::refusal::Refusal;
use sessions::{Delivery, answer, closing, mode};
use state::sizes::{
    CLOCK_LIMIT, CONNECTION_LIMIT, OUTPUT_MINIMUM, PAYLOAD_LIMIT, SESSION_LIMIT, Strings, Words,
};
use state::{fresh as start, search, sizes, tables};

// Connection numbers at the C interface are 32 bits wide.
const CONNECTIONS: u32 = CONNECTION_LIMIT as u32;

// The bytes of a message's header.
const HEADER: usize = 16;

// What the other calls answer the host: the refusal (0: none), and how many bytes of the output hold frames.
// Kept: a number for the refusal, here and in Answered, since these are structs of the C interface.
#[repr(C)]
#[derive(Clone, Copy)]
pub struct Done {
    pub refusal: u64,
    pub output: u64,
}

// Unread bytes of a connection are delivered. The way of a message is the first at each test, so that the compiler lays it out in one row, and a
// piece of a header is answered here, where the answer has not to be joined with others.
pub fn hislip_deliver(
    words: &mut Words,
    strings: &mut Strings,
    connection: u32,
    bytes: &[u8],
    out: &mut [u8],
) -> Delivery
    ensures { Delivered (delivery connection bytes.now (length out.old)) result (memory words.old strings.old) (memory words.new strings.new) out.old out.new }
{
    if out.len() >= OUTPUT_MINIMUM {
        if connection < CONNECTIONS {
            let c = connection as u64;
            if tables::is_ready(words, connection as usize) {
                if bytes.len() >= HEADER {
                    return deliver::deliver_message(words, strings, out, c, bytes);
                }
                return answer::more_needed((HEADER - bytes.len()) as u64);
            }
            if tables::is_open(words, connection as usize) {
                return deliver::deliver_remainder(words, c, bytes);
            }
            return answer::refuse(1);
        }
        return answer::refuse(1);
    }
    answer::refuse(7)
}

// A refused call sends nothing.
impl From<Result<usize, Refusal>> for Done {
    ghost from_gives = { λ r d. d ≡ done_told r };

    fn from(told: Result<usize, Refusal>) -> Done {
        match told {
            Ok(output) => Done {
                refusal: 0,
                output: output as u64,
            },
            Err(why) => Done {
                refusal: why.number(),
                output: 0,
            },
        }
    }
}

fn try_open(words: &mut Words, strings: &mut Strings, connection: u32) -> Result<usize, Refusal>
    ensures { Called (opening connection) (done_told result) (memory words.old strings.old) (memory words.new strings.new) [] [] }
{
    if connection >= CONNECTIONS {
        return Err(Refusal::NoSuchConnection);
    }
    if tables::is_open(words, connection as usize) {
        return Err(Refusal::AlreadyOpen);
    }
    events::open_connection(words, connection as u64);
    Ok(0)
}

// A connection opens.
pub fn hislip_open(words: &mut Words, strings: &mut Strings, connection: u32) -> Done
    ensures { Called (opening connection) result (memory words.old strings.old) (memory words.new strings.new) [] [] }
{
    Done::from(try_open(words, strings, connection))
}

fn try_cut(
    words: &mut Words,
    strings: &mut Strings,
    connection: u32,
    out: &mut [u8],
) -> Result<usize, Refusal>
    ensures { Called (cut connection (length out.old)) (done_told result) (memory words.old strings.old)
        (memory words.new strings.new) out.old out.new }
{
    if out.len() < OUTPUT_MINIMUM {
        return Err(Refusal::BufferTooSmall);
    }
    if connection >= CONNECTIONS {
        return Err(Refusal::NoSuchConnection);
    }
    if !tables::is_open(words, connection as usize) {
        return Err(Refusal::NoSuchConnection);
    }
    let i = search::place_of(words, connection as u64).slot();
    Ok(closing::close_place(words, strings, out, 0, connection as u64, i))
}

// A connection is cut.
pub fn hislip_cut(words: &mut Words, strings: &mut Strings, connection: u32, out: &mut [u8]) -> Done
    ensures { Called (cut connection (length out.old)) result (memory words.old strings.old)
        (memory words.new strings.new) out.old out.new }
{
    Done::from(try_cut(words, strings, connection, out))
}

fn try_clock(
    words: &mut Words,
    strings: &mut Strings,
    milliseconds: u64,
    out: &mut [u8],
) -> Result<usize, Refusal>
    ensures { Called (clock milliseconds (length out.old)) (done_told result) (memory words.old strings.old)
        (memory words.new strings.new) out.old out.new }
{
    if out.len() < OUTPUT_MINIMUM {
        return Err(Refusal::BufferTooSmall);
    }
    if milliseconds > CLOCK_LIMIT {
        return Err(Refusal::ClockAbove);
    }
    if milliseconds < tables::clock(words) {
        return Err(Refusal::ClockBack);
    }
    Ok(waiting::expire(words, strings, out, 0, milliseconds))
}

// The clock reads so many milliseconds.
pub fn hislip_clock(
    words: &mut Words,
    strings: &mut Strings,
    milliseconds: u64,
    out: &mut [u8],
) -> Done
    ensures { Called (clock milliseconds (length out.old)) result (memory words.old strings.old)
        (memory words.new strings.new) out.old out.new }
{
    Done::from(try_clock(words, strings, milliseconds, out))
}

// The instrument's status byte changes.
pub fn hislip_status(words: &mut Words, strings: &mut Strings, status: u8)
    ensures { Post view (Event.status status) (memory words.old strings.old) (memory words.new strings.new) []
        [] done 0 × (Tidy (memory words.old strings.old) → Tidy (memory words.new strings.new)) }
{
    events::set_status(words, status);
}

// A fresh server in the lent memory, which prefers synchronized mode if `overlap` is 0, else overlap mode.
pub fn hislip_new(words: &mut Words, strings: &mut Strings, vendor: u16, overlap: u8)
    ensures { Fresh (record { vendor = vendor; prefers_overlap = not (eqb overlap 0) }) (memory words.new strings.new) }
{
    start::start(words, strings, vendor, overlap != 0);
}

// How many words and bytes to lend.
pub fn hislip_words() -> u64
    ensures { result ≡ WORDS }
{
    sizes::words()
}

pub fn hislip_string_bytes() -> u64
    ensures { result ≡ STRINGS }
{
    sizes::string_bytes()
}

// What hislip_answer answers the host: the refusal (0: none), 1 if the answer was withheld, and how many bytes of the output hold frames.
#[repr(C)]
#[derive(Clone, Copy)]
pub struct Answered {
    pub refusal: u64,
    pub withheld: u64,
    pub output: u64,
}

fn replied(refusal: u64, withheld: u64, output: u64) -> Answered
    ensures { result ≡ record { refusal = refusal; withheld = withheld; output = output } }
{
    Answered {
        refusal,
        withheld,
        output,
    }
}

// An answer to slot i that is not refused: withheld where the next question is unread, else sent.
fn give_answer(
    words: &mut Words,
    out: &mut [u8],
    i: usize,
    end: bool,
    payload: &[u8],
    shown: &[u8],
) -> Answered
    requires { (i < session_limit) × (length payload.now ≤ payload_limit) × (output_minimum ≤ length out.old) }
    ensures { ((s : List ℕ) → Gives (view (memory words.old s)) i end payload.now shown.now result
        (view (memory words.new s)) out.old out.new)
        × ((s : List ℕ) → Tidy (memory words.old s) → Tidy (memory words.new s)) }
{
    if interrupted::withholds(words, i, end, shown) {
        let n = interrupted::withhold(words, out, i, shown);
        return replied(0, 1, n as u64);
    }
    let n = events::send_readings(words, out, i, end, payload);
    replied(0, 0, n as u64)
}

// The refusal of an answer of n bytes to slot i (0: none).
// Kept: one number and no `Result`, since behind five early returns the compiler takes `give_answer` for rare and leaves it a call.
fn answer_refusal(words: &Words, i: usize, n: usize) -> u64
    ensures { ((s : List ℕ) → refused_at (view (memory words.now s)) i n ≡ result) × (result ≡ 0 → (i < session_limit) × (n ≤ payload_limit)) }
{
    if i >= SESSION_LIMIT {
        return Refusal::NoSuchSession as u64;
    }
    if tables::entry(words, i, tables::NUMBER) == 0 {
        return Refusal::NoSuchSession as u64;
    }
    if !mode::may_answer(words, i) {
        return Refusal::NothingAsked as u64;
    }
    if n > PAYLOAD_LIMIT {
        return Refusal::AnswerTooLong as u64;
    }
    if tables::exchange(words, i, tables::CLIENT_SIZE) < n as u64 {
        return Refusal::AnswerTooLong as u64;
    }
    0
}

// The instrument answers a session, with END unless `end` is 0; `shown` is what is unread of the session's synchronous connection.
pub fn hislip_answer(
    words: &mut Words,
    strings: &mut Strings,
    session: u32,
    payload: &[u8],
    end: u8,
    shown: &[u8],
    out: &mut [u8],
) -> Answered
    ensures { Replied (answer session payload.now (not (eqb end 0)) shown.now (length out.old)) result
        (memory words.old strings.old) (memory words.new strings.new) out.old out.new }
{
    if out.len() < OUTPUT_MINIMUM {
        return replied(Refusal::BufferTooSmall as u64, 0, 0);
    }
    let i = search::slot_of_number(words, session as u64);
    let refusal = answer_refusal(words, i, payload.len());
    if refusal != 0 {
        return replied(refusal, 0, 0);
    }
    give_answer(words, out, i, end != 0, payload, shown)
}
