// Passing over entries by their lengths, to find the latest of a part.
ghost use Rattle.std.specs.Prelude.{◌≡◌, Ok};
ghost use Rattle.std.specs.Option.{option_map};
ghost use Rattle.journal.specs.Journals.{scan, Ends, latest, skim_at, account_told, told};

use account::account::Account;
use account::refusal::Refusal;
use items::item::{read_body, read_kind};
use items::read::{read_part, read_tally};
use numbers::number::read_number;

// What a pass over an entry tells: all but its numbers, the place of those, and that of the next entry.
#[derive(Clone, Copy)]
pub(crate) struct Skimmed {
    pub(crate) part: u32,
    pub(crate) version: u32,
    pub(crate) numbers: usize,
    pub(crate) next: usize,
}

// Passes over the entry at a place.
fn skim(bytes: &[u8], place: usize) -> Result<Skimmed, Refusal>
    ensures { result ≡ skim_at bytes.now place }
{
    let (version, next) = read_number(bytes, place)?;
    let (kind, next) = read_kind(bytes, next)?;
    let body = read_body(bytes, kind, next)?;
    let (part, numbers) = read_part(bytes, body.from)?;
    Ok(Skimmed {
        part,
        version,
        numbers,
        next: body.end,
    })
}

// The latest entry of a part, among those that stand before the end.
pub(crate) fn find_latest(bytes: &[u8], end: usize, part: u32) -> Option<Skimmed>
    requires { Ends bytes.now end }
    ensures { option_map (told bytes.now) result ≡ option_map Ok (latest (scan bytes.now).entries part) }
{
    let mut found = None;
    let mut place = 0;
    while place < end {
        let Ok(entry) = skim(bytes, place) else {
            unreachable()
        };
        if entry.part == part {
            found = Some(entry);
        }
        place = entry.next;
    }
    found
}

impl Skimmed {
    // The account of the entry.
    pub(crate) fn account(self, bytes: &[u8]) -> Result<Account, Refusal>
        ensures { result ≡ account_told bytes.now self }
    {
        let (tally, _) = read_tally(bytes, self.numbers)?;
        tally.check().ok_or(Refusal::Contradiction)
    }
}
