// The calls that keep a journal: each does the plain call's event, and then writes its entry.
#![tactic(auto)]

ghost use Rattle.std.specs.Prelude.{eqb, length, not, [], ◌≡◌};
ghost use Rattle.journal.specs.Writer.{kept_number};
ghost use Rattle.model.specs.Interface.{Event, Event.answer, Event.clock, Event.cut, Event.delivery, Event.opening, Reply};
ghost use Rattle.model.specs.Post.{Post};
ghost use Rattle.server.specs.Calls.{Delivered};
ghost use Rattle.server.specs.Events.{Called, Replied};
ghost use Rattle.state.specs.Tidy.{Tidy};
ghost use Rattle.state.specs.View.{memory, view};
ghost use Rattle.keep.specs.Keeping.{Keeps, keeping, looked, of_answered, of_delivery, of_done};

pub mod book;
pub mod lists;
pub mod watches;

use entries::heads::{self, Tag};
use entries::{Writer, keep_delivery, keep_entry, keep_numbers};
use journal::{Unwritten, kept_number};
use record::events::{MOST_DELIVERED, MOST_SHOWN};
use server::{Answered, Done};
use sessions::Delivery;
use state::sizes::{Strings, Words};

// What the calls answer: the plain call's numbers, then what became of the entry: 0 written (or the event was refused), 1 no room, 2 closed.
// Kept: the refusal, the outcome and what became of the entry are numbers, here and in lists.rt, since these are structs of the C interface.
#[repr(C)]
#[derive(Clone, Copy)]
pub struct KeptDelivery {
    pub refusal: u64,
    pub outcome: u64,
    pub session: u64,
    pub taken: u64,
    pub output: u64,
    pub missing: u64,
    pub kept: u64,
}

#[repr(C)]
#[derive(Clone, Copy)]
pub struct KeptDone {
    pub refusal: u64,
    pub output: u64,
    pub kept: u64,
}

#[repr(C)]
#[derive(Clone, Copy)]
pub struct KeptAnswered {
    pub refusal: u64,
    pub withheld: u64,
    pub output: u64,
    pub kept: u64,
}

#[repr(C)]
#[derive(Clone, Copy)]
pub struct KeptAlone {
    pub kept: u64,
}

// What each call answers is made of the plain call's answer and of what became of the entry.
impl From<(Delivery, Result<(), Unwritten>)> for KeptDelivery {
    ghost from_gives = { λ told kept. (of_delivery kept ≡ told.0) × (kept.kept ≡ kept_number told.1) };

    fn from(told: (Delivery, Result<(), Unwritten>)) -> KeptDelivery {
        let (plain, entry) = told;
        KeptDelivery {
            refusal: plain.refusal,
            outcome: plain.outcome,
            session: plain.session,
            taken: plain.taken,
            output: plain.output,
            missing: plain.missing,
            kept: kept_number(entry),
        }
    }
}

impl From<(Done, Result<(), Unwritten>)> for KeptDone {
    ghost from_gives = { λ told kept. (of_done kept ≡ told.0) × (kept.kept ≡ kept_number told.1) };

    fn from(told: (Done, Result<(), Unwritten>)) -> KeptDone {
        let (done, entry) = told;
        KeptDone {
            refusal: done.refusal,
            output: done.output,
            kept: kept_number(entry),
        }
    }
}

impl From<(Answered, Result<(), Unwritten>)> for KeptAnswered {
    ghost from_gives = { λ told kept. (of_answered kept ≡ told.0) × (kept.kept ≡ kept_number told.1) };

    fn from(told: (Answered, Result<(), Unwritten>)) -> KeptAnswered {
        let (answered, entry) = told;
        KeptAnswered {
            refusal: answered.refusal,
            withheld: answered.withheld,
            output: answered.output,
            kept: kept_number(entry),
        }
    }
}

impl From<Result<(), Unwritten>> for KeptAlone {
    ghost from_gives = { λ told alone. alone.kept ≡ kept_number told };

    fn from(told: Result<(), Unwritten>) -> KeptAlone {
        KeptAlone {
            kept: kept_number(told),
        }
    }
}

// A connection opens.
// Kept: each kept call, here and in watches.rt and lists.rt, is the plain call, the head of its event and the entry, a line each. One function
// over closures for the plain call and the head would need as many lines at each call.
pub fn hislip_keep_open(
    words: &mut Words,
    strings: &mut Strings,
    connection: u32,
    journal: &mut Writer,
    book: &mut [u8],
) -> KeptDone
    ensures { Called (opening connection) (of_done result) (memory words.old strings.old)
        (memory words.new strings.new) [] []
        × Keeps (keeping (view (memory words.old strings.old)) (opening connection) journal.old book.old)
        result.kept journal.new book.new }
{
    let r = server::hislip_open(words, strings, connection);
    let head = heads::one(Tag::Opening, connection as u64);
    let told = keep_numbers(journal, book, r.refusal, &head, &[]);
    KeptDone::from((r, told))
}

// A connection is cut.
pub fn hislip_keep_cut(
    words: &mut Words,
    strings: &mut Strings,
    connection: u32,
    out: &mut [u8],
    journal: &mut Writer,
    book: &mut [u8],
) -> KeptDone
    ensures { Called (cut connection (length out.old)) (of_done result) (memory words.old strings.old)
        (memory words.new strings.new) out.old out.new
        × Keeps (keeping (view (memory words.old strings.old)) (cut connection (length out.old)) journal.old
        book.old) result.kept journal.new book.new }
{
    let r = server::hislip_cut(words, strings, connection, out);
    let head = heads::one(Tag::Cut, connection as u64);
    let n = r.output as usize;
    let told = keep_numbers(journal, book, r.refusal, &head, &out[..n]);
    KeptDone::from((r, told))
}

// The clock reads so many milliseconds.
pub fn hislip_keep_clock(
    words: &mut Words,
    strings: &mut Strings,
    milliseconds: u64,
    out: &mut [u8],
    journal: &mut Writer,
    book: &mut [u8],
) -> KeptDone
    ensures { Called (clock milliseconds (length out.old)) (of_done result) (memory words.old strings.old)
        (memory words.new strings.new) out.old out.new
        × Keeps (keeping (view (memory words.old strings.old)) (clock milliseconds (length out.old)) journal.old
        book.old) result.kept journal.new book.new }
{
    let r = server::hislip_clock(words, strings, milliseconds, out);
    let head = heads::long(Tag::Clock, milliseconds);
    let n = r.output as usize;
    let told = keep_numbers(journal, book, r.refusal, &head, &out[..n]);
    KeptDone::from((r, told))
}

// The instrument's status byte changes.
pub fn hislip_keep_status(
    words: &mut Words,
    strings: &mut Strings,
    status: u8,
    journal: &mut Writer,
    book: &mut [u8],
) -> KeptAlone
    ensures { (Post view (Event.status status) (memory words.old strings.old) (memory words.new strings.new) []
        [] Reply.done 0 × (Tidy (memory words.old strings.old) → Tidy (memory words.new strings.new)))
        × Keeps (keeping (view (memory words.old strings.old)) (Event.status status) journal.old book.old)
        result.kept journal.new book.new }
{
    server::hislip_status(words, strings, status);
    let head = heads::byte(Tag::Status, status as u64);
    let told = keep_numbers(journal, book, 0, &head, &[]);
    KeptAlone::from(told)
}

// Unread bytes of a connection are delivered. With a journal kept no more than the first 1,040 are looked at.
pub fn hislip_keep_deliver(
    words: &mut Words,
    strings: &mut Strings,
    connection: u32,
    bytes: &[u8],
    out: &mut [u8],
    journal: &mut Writer,
    book: &mut [u8],
) -> KeptDelivery
    ensures { Delivered (looked (delivery connection bytes.now (length out.old))) (of_delivery result)
        (memory words.old strings.old) (memory words.new strings.new) out.old out.new
        × Keeps (keeping (view (memory words.old strings.old))
        (looked (delivery connection bytes.now (length out.old))) journal.old book.old) result.kept
        journal.new book.new }
{
    let n = bytes.len().min(MOST_DELIVERED);
    let shown = &bytes[..n];
    let r = server::hislip_deliver(words, strings, connection, shown, out);
    let m = r.output as usize;
    let told = keep_delivery(
        journal,
        book,
        r.refusal,
        connection as u64,
        shown,
        &out[..m],
    );
    KeptDelivery::from((r, told))
}

// The instrument answers a session, with END unless `end` is 0. Of what is unread of the session's synchronous connection only the first 16
// bytes count.
pub fn hislip_keep_answer(
    words: &mut Words,
    strings: &mut Strings,
    session: u32,
    payload: &[u8],
    end: u8,
    shown: &[u8],
    out: &mut [u8],
    journal: &mut Writer,
    book: &mut [u8],
) -> KeptAnswered
    ensures { Replied (looked (answer session payload.now (not (eqb end 0)) shown.now (length out.old))) (of_answered result)
        (memory words.old strings.old) (memory words.new strings.new) out.old out.new
        × Keeps (keeping (view (memory words.old strings.old))
        (looked (answer session payload.now (not (eqb end 0)) shown.now (length out.old))) journal.old
        book.old) result.kept journal.new book.new }
{
    let n = shown.len().min(MOST_SHOWN);
    let s = &shown[..n];
    let r = server::hislip_answer(words, strings, session, payload, end, s, out);
    let head = heads::three(
        Tag::Answer,
        session as u64,
        heads::bit(end),
        payload.len() as u64,
    );
    let row = heads::row(s);
    let e = 4 + n;
    let sent = r.output as usize;
    let told = keep_entry(
        journal,
        book,
        r.refusal,
        &head,
        payload,
        &row[..e],
        &out[..sent],
    );
    KeptAnswered::from((r, told))
}

// An event more is a call like these (watches.rt has three, lists.rt one), with a line each in `looked` (specs/Keeping.antt) and `recorded` (judging/specs/Kept.antt) and a tag and a head in heads.rt.
