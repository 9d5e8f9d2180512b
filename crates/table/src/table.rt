// A store in a lent list of slots, of which the first 64 are used.
ghost use Rattle.std.specs.Prelude.{◌≡◌, position};
ghost use Rattle.store.specs.Meaning.{put_answer, After};
ghost use Rattle.table.specs.Tables.{holds, unused, spot_of, front_of, put_slots, table_meaning, emptied};
ghost use Rattle.table.specs.TableSound.{table_sound};

use crate::slot::Slot;
use account::account::Account;
use account::part::LAST_PART;
use account::refusal::Refusal;
use account::tally::{NO_COUNTS, Tally};
use store::bottom::{front, in_range};
use store::store::Store;

// How many slots a table uses.
pub const SLOTS: usize = 64;

// An unused slot.
pub const EMPTY: Slot = Slot {
    part: 0,
    version: 0,
    tally: Tally {
        reserve: 0,
        rows: [NO_COUNTS; 8],
        issued: NO_COUNTS,
    },
};

// The records are those of the slots.
#[derive(Drop)]
pub struct Table<'a> {
    slots: &'a mut [Slot],
}

// Empties the slots that a table uses.
fn clear(slots: &mut [Slot])
    ensures { slots.new ≡ emptied slots.old }
{
    let used = slots.len().min(SLOTS);
    slots[..used].fill(EMPTY);
}

impl Table<'_> {
    // An empty table.
    pub fn start(slots: &mut [Slot]) -> Table<'_>
        ensures { result.slots.now ≡ emptied slots.old }
    {
        clear(slots);
        Table::over(slots)
    }

    // A table of the records that the memory holds.
    pub fn over(slots: &mut [Slot]) -> Table<'_>
        ensures { result.slots.now ≡ slots.old }
    {
        Table { slots }
    }

    // The slots that the table uses.
    fn front(&self) -> &[Slot]
        ensures { result.now ≡ front_of self.now.slots.now }
    {
        front(&self.slots[..], SLOTS)
    }

    // The place of the front slot that holds the part.
    fn find(&self, part: u32) -> Option<usize>
        ensures { result ≡ position (holds part) (front_of self.now.slots.now) }
    {
        self.front().iter().position(|slot| slot.holds(part))
    }

    // The place of the front slot that is unused.
    fn find_unused(&self) -> Option<usize>
        ensures { result ≡ position unused (front_of self.now.slots.now) }
    {
        self.front().iter().position(|slot| !slot.is_used())
    }

    // Where a record of the part goes: to its own slot, else to an unused one.
    fn spot(&self, part: u32) -> Option<usize>
        ensures { result ≡ spot_of (front_of self.now.slots.now) part }
    {
        match self.find(part) {
            Some(spot) => Some(spot),
            None => self.find_unused(),
        }
    }
}

impl Store for Table<'_> {
    ghost meaning = { λ t. table_meaning t.slots.now };

    ghost sound = { λ t. table_sound t.slots.now };

    fn greatest(&self) -> u32 {
        LAST_PART
    }

    fn layer(&self) -> u32 {
        0
    }

    #[tactic(auto, using(crate::proofs::Walks::look_here, crate::proofs::Walks::look_all))]
    fn look_up(&self, part: u32, into: &mut Account) -> Option<u32> {
        let front = self.front();
        for slot in front {
            if let Some(account) = slot.held(part) {
                *into = account;
                return Some(slot.version);
            }
        }
        None
    }

    fn put(&mut self, part: u32, version: u32, account: &Account) -> Result<(), Refusal>
        ensures answer { result ≡ put_answer (table_meaning self.old.slots.now) part version }
        ensures after { After (table_meaning self.old.slots.now) part version account.now result (table_meaning self.new.slots.now) }
        ensures slots { self.new.slots.now ≡ put_slots self.old.slots.now part version account.now }
    {
        if !in_range(part, version) {
            return Err(Refusal::OutOfRange);
        }
        let Some(spot) = self.spot(part) else {
            return Err(Refusal::StoreRefused { layer: 0 });
        };
        self.slots[spot] = Slot {
            part,
            version,
            tally: account.tally(),
        };
        Ok(())
    }
}
