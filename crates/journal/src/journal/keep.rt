// A journal is a store.
ghost use Rattle.std.specs.Prelude.{◌≡◌};
ghost use Rattle.store.specs.Meaning.{put_answer, After};
ghost use Rattle.journal.specs.Journals.{has_room, front_of, journal_meaning, put_bytes};
ghost use Rattle.journal.specs.JournalSound.{journal_sound};

use super::{Journal, USED};
use crate::entry::{Entry, append};
use crate::skim::find_latest;
use account::account::Account;
use account::part::LAST_PART;
use account::refusal::Refusal;
use store::bottom::{front, in_range};
use store::store::Store;

// The bytes that an entry and the zero byte behind it may take.
const ROOM: usize = 377;

impl Journal<'_> {
    // The bytes that the journal uses.
    fn front(&self) -> &[u8]
        ensures { result.now ≡ front_of self.now.bytes.now }
    {
        front(&self.bytes[..], USED)
    }

    // Is there room for another entry?
    fn has_room(&self) -> bool
        ensures { result ≡ has_room self.now.bytes.now }
    {
        self.front().len().saturating_sub(self.end) >= ROOM
    }
}

impl Store for Journal<'_> {
    ghost meaning = { λ j. journal_meaning j.bytes.now };

    ghost sound = { λ j. journal_sound j.bytes.now };

    fn greatest(&self) -> u32 {
        LAST_PART
    }

    fn layer(&self) -> u32 {
        0
    }

    fn look_up(&self, part: u32, into: &mut Account) -> Option<u32> {
        let front = self.front();
        let found = find_latest(front, self.end, part)?;
        let Ok(account) = found.account(front) else {
            unreachable()
        };
        *into = account;
        Some(found.version)
    }

    fn put(&mut self, part: u32, version: u32, account: &Account) -> Result<(), Refusal>
        ensures answer { result ≡ put_answer (journal_meaning self.old.bytes.now) part version }
        ensures after { After (journal_meaning self.old.bytes.now) part version account.now result (journal_meaning self.new.bytes.now) }
        ensures bytes { self.new.bytes.now ≡ put_bytes self.old.bytes.now part version account.now }
    {
        if !in_range(part, version) {
            return Err(Refusal::OutOfRange);
        }
        if !self.has_room() {
            return Err(Refusal::StoreRefused { layer: 0 });
        }
        let entry = Entry {
            part,
            version,
            account: *account,
        };
        let Journal { bytes, end } = self;
        *end = append(bytes, *end, &entry);
        Ok(())
    }
}
