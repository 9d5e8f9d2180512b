// An entry of a journal: a version and then an account item.
ghost use Rattle.std.specs.Prelude.{◌≡◌, ◌+◌, ◌≤◌, true, ◌&&◌, length};
ghost use Rattle.items.specs.Writing.{put};
ghost use Rattle.store.specs.Bottoms.{in_range};
ghost use Rattle.store.specs.Meaning.{Took};
ghost use Rattle.journal.specs.Journals.{EntryFits, entry_bytes, version_at, entry_at, Ends, front_of, has_room, put_bytes, journal_meaning};

use account::account::Account;
use account::refusal::Refusal;
use items::read::read_account_at;
use items::write::write_account;
use numbers::number::{read_number, write_number};
use store::bottom::version_ok;

// A version of a part's account.
#[derive(Clone, Copy)]
pub(crate) struct Entry {
    pub(crate) part: u32,
    pub(crate) version: u32,
    pub(crate) account: Account,
}

// The version at a place, and the place after it.
fn read_version(bytes: &[u8], place: usize) -> Result<(u32, usize), Refusal>
    ensures { result ≡ version_at bytes.now place }
{
    let (version, next) = read_number(bytes, place)?;
    if !version_ok(version) {
        return Err(Refusal::Malformed { place });
    }
    Ok((version, next))
}

// The whole and lawful entry at a place, and the place after it.
#[tactic(auto, unfolding(crate::specs::Journals::entry_at))]
fn read_entry(bytes: &[u8], place: usize) -> Result<(Entry, usize), Refusal>
    ensures { result ≡ entry_at bytes.now place }
{
    let (version, next) = read_version(bytes, place)?;
    let (item, next) = read_account_at(bytes, next)?;
    let account = item.tally.check().ok_or(Refusal::Contradiction)?;
    Ok((
        Entry {
            part: item.part,
            version,
            account,
        },
        next,
    ))
}

// The place where no whole and lawful entry begins any more.
pub(crate) fn find_end(bytes: &[u8]) -> usize
    ensures { Ends bytes.now result }
{
    let mut end = 0;
    while let Ok((_, next)) = read_entry(bytes, end) {
        end = next;
    }
    end
}

// Writes an entry at a place. Answers the place after it.
fn write_entry(bytes: &mut [u8], place: usize, entry: &Entry) -> usize
    requires fits { EntryFits entry.now }
    requires room { place + length (entry_bytes entry.now) ≤ length bytes.old }
    ensures next { result ≡ place + length (entry_bytes entry.now) }
    ensures bytes { bytes.new ≡ put bytes.old place (entry_bytes entry.now) }
{
    let Some(used) = write_number(&mut bytes[place..], entry.version) else {
        unreachable()
    };
    let Ok(length) = write_account(bytes, place + used, entry.part, &entry.account) else {
        unreachable()
    };
    place + used + length
}

// Writes an entry at the end of a journal, and a zero byte after it. Answers the new end.
pub(crate) fn append(bytes: &mut [u8], end: usize, entry: &Entry) -> usize
    requires ends { Ends (front_of bytes.old) end }
    requires taken { (in_range entry.now.part entry.now.version && has_room bytes.old) ≡ true }
    ensures ends { Ends (front_of bytes.new) result }
    ensures bytes { bytes.new ≡ put_bytes bytes.old entry.now.part entry.now.version entry.now.account }
    ensures meaning { Took (journal_meaning bytes.old) entry.now.part entry.now.version entry.now.account (journal_meaning bytes.new) }
{
    let next = write_entry(bytes, end, entry);
    bytes[next] = 0;
    next
}
