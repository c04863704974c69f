// The list of allowed commands, kept: its text.
ghost use Rattle.keep.specs.Keeping.{Keeps, keeping, of_listed};
ghost use Rattle.model.specs.Interface.{Event.setting, Setting.patterns};
ghost use Rattle.server.specs.Listing.{SetsList};
ghost use Rattle.std.specs.Prelude.{◌≡◌};
ghost use Rattle.journal.specs.Writer.{kept_number};
ghost use Rattle.state.specs.View.{memory, view};

use entries::heads::{self, Tag};
use entries::{Writer, keep_numbers};
use journal::{Unwritten, kept_number};
use server::listing;
use server::listing::Listed;
use state::sizes::{Strings, Words};

// What the call answers: hislip_patterns' numbers, then what became of the entry.
#[repr(C)]
#[derive(Clone, Copy)]
pub struct KeptListed {
    pub refusal: u64,
    pub pattern: u64,
    pub place: u64,
    pub kept: u64,
}

impl From<(Listed, Result<(), Unwritten>)> for KeptListed {
    ghost from_gives = { λ told kept. (of_listed kept ≡ told.0) × (kept.kept ≡ kept_number told.1) };

    fn from(told: (Listed, Result<(), Unwritten>)) -> KeptListed {
        let (listed, entry) = told;
        KeptListed {
            refusal: listed.refusal,
            pattern: listed.pattern,
            place: listed.place,
            kept: kept_number(entry),
        }
    }
}

// The host sets the list of allowed commands.
pub fn hislip_keep_patterns(
    words: &mut Words,
    strings: &mut Strings,
    text: &[u8],
    journal: &mut Writer,
    book: &mut [u8],
) -> KeptListed
    ensures { SetsList text.now (of_listed result) (memory words.old strings.old)
        (memory words.new strings.new) × Keeps
        (keeping (view (memory words.old strings.old)) (setting (patterns text.now)) journal.old
        book.old) result.kept journal.new book.new }
{
    let r = listing::hislip_patterns(words, strings, text);
    let head = heads::one(Tag::Patterns, text.len() as u64);
    let told = keep_numbers(journal, book, r.refusal, &head, text);
    KeptListed::from((r, told))
}
