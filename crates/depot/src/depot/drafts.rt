// Opening a draft, booking on it, filing or dropping it.
ghost use Rattle.std.specs.Prelude.{◌≡◌};
ghost use Rattle.account.specs.declared.booking.Booking.TheVariants.{TakeIn, Issue, HandOver};
ghost use Rattle.depot.specs.Drafts.{Opened, Booked, Taken, Filed, Renewed, Dropped, Restarted};
ghost use Rattle.depot.specs.Views.{view, till_ok, draft_of};

use super::{Depot, TILLS};
use crate::draft::Draft;
use crate::slip::{Declined, Slip};
use account::booking::Booking;
use account::refusal::Refusal;
use account::tally::LIMIT;
use store::store::Store;

// Is there a till of this number?
fn is_till(till: u32) -> bool
    ensures { result ≡ till_ok till }
{
    (1..=TILLS).contains(&(till as usize))
}

impl<S: Store> Depot<S> {
    // The draft that a slip names.
    fn draft(&self, slip: &Slip) -> Option<Draft>
        ensures { result ≡ draft_of (view S.meaning self.now) slip.now }
    {
        if slip.depot != self.number.number() || !is_till(slip.till) {
            return None;
        }
        self.tills[slip.till as usize - 1].filter(|draft| draft.is_of(slip))
    }

    // Gives the slip up and takes its draft out of the till. A slip that is no draft's is handed back.
    fn take(&mut self, slip: Slip) -> Result<Draft, Declined>
        ensures { Taken (view S.meaning self.old) slip result (view S.meaning self.new) }
    {
        let Some(draft) = self.draft(&slip) else {
            return Err(Declined {
                refusal: Refusal::NoDraft,
                slip: Some(slip),
            });
        };
        self.tills[slip.till as usize - 1] = None;
        Ok(draft)
    }

    // Copies a part's account and version into a till, and gives the slip for it.
    pub fn open(&mut self, till: u32, part: u32) -> Result<Slip, Refusal>
        ensures { Opened (view S.meaning self.old) till part result (view S.meaning self.new) }
    {
        if !is_till(till) {
            return Err(Refusal::OutOfRange);
        }
        let kept = self.kept(part)?;
        if self.tills[till as usize - 1].is_some() {
            return Err(Refusal::TillTaken);
        }
        if self.openings >= LIMIT {
            return Err(Refusal::LimitPassed);
        }
        let serial = self.openings + 1;
        self.openings = serial;
        self.tills[till as usize - 1] = Some(Draft { part, serial, kept });
        Ok(Slip {
            depot: self.number.number(),
            till,
            serial,
            version: kept.version,
        })
    }

    // Books on the slip's draft. Answers the own free stock in it afterwards.
    pub fn book(&mut self, slip: &Slip, entry: Booking) -> Result<u64, Refusal>
        ensures { Booked (view S.meaning self.old) slip.now entry result (view S.meaning self.new) }
    {
        if !entry.is_in_range() {
            return Err(Refusal::OutOfRange);
        }
        let mut draft = self.draft(slip).ok_or(Refusal::NoDraft)?;
        let free = draft.kept.account.book(self.number, entry)?;
        self.tills[slip.till as usize - 1] = Some(draft);
        Ok(free)
    }

    // Takes goods in.
    pub fn take_in(&mut self, slip: &Slip, amount: u32) -> Result<u64, Refusal>
        ensures { Booked (view S.meaning self.old) slip.now (TakeIn amount) result (view S.meaning self.new) }
    {
        self.book(slip, Booking::TakeIn { amount })
    }

    // Issues goods from the own free stock.
    pub fn issue(&mut self, slip: &Slip, amount: u32) -> Result<u64, Refusal>
        ensures { Booked (view S.meaning self.old) slip.now (Issue amount) result (view S.meaning self.new) }
    {
        self.book(slip, Booking::Issue { amount })
    }

    // Hands own free stock over to another depot.
    pub fn hand_over(&mut self, slip: &Slip, amount: u32, to: u32) -> Result<u64, Refusal>
        ensures { Booked (view S.meaning self.old) slip.now (HandOver amount to) result (view S.meaning self.new) }
    {
        self.book(slip, Booking::HandOver { amount, to })
    }

    // Puts the draft's account as the next version, answers that version and gives the slip up.
    pub fn file(&mut self, slip: Slip) -> Result<u32, Declined>
        ensures { Filed (view S.meaning self.old) slip result (view S.meaning self.new) }
    {
        let draft = self.take(slip)?;
        Ok(self.renew(draft)?)
    }

    // Puts a draft's account as the part's next version, if the stored one is still the draft's.
    fn renew(&mut self, draft: Draft) -> Result<u32, Refusal>
        ensures { Renewed (view S.meaning self.old) draft result (view S.meaning self.new) }
    {
        let Draft { part, kept, .. } = draft;
        if kept.version >= LIMIT {
            return Err(Refusal::LimitPassed);
        }
        if !self
            .look_up(part)
            .is_some_and(|stored| stored.version == kept.version)
        {
            return Err(Refusal::VersionMoved);
        }
        let version = kept.version + 1;
        self.store.put(part, version, &kept.account)?;
        Ok(version)
    }

    // Gives the slip up, idles its till and answers 0.
    pub fn drop_draft(&mut self, slip: Slip) -> Result<u32, Declined>
        ensures { Dropped (view S.meaning self.old) slip result (view S.meaning self.new) }
    {
        self.take(slip)?;
        Ok(0)
    }

    // Idles all tills and answers how many drafts are lost.
    pub fn restart(&mut self) -> u32
        ensures { Restarted (view S.meaning self.old) result (view S.meaning self.new) }
    {
        let lost = self.tills.iter().filter(|till| till.is_some()).count();
        self.tills = [None; TILLS];
        lost as u32
    }
}
