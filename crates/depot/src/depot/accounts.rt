// Making a depot, creating accounts, reading and sending the stored ones.
ghost use Rattle.std.specs.Prelude.{◌≡◌};
ghost use Rattle.depot.specs.Accounts.{Created, kept_answer, stock_answer, own_free_answer, advise_answer, named_in};
ghost use Rattle.depot.specs.Records.{kept_in};
ghost use Rattle.depot.specs.Sending.{send_answer, send_left};
ghost use Rattle.depot.specs.Views.{view, fresh_view};
ghost use Rattle.store.specs.Meaning.{part_ok};

use super::{Depot, TILLS};
use crate::kept::Kept;
use account::account::Account;
use account::depot_number::DepotNumber;
use account::refusal::Refusal;
use account::tally::LIMIT;
use items::write::write_account;
use store::store::Store;

impl<S: Store> Depot<S> {
    // A depot over a store, which may have records already. Its tills are idle.
    pub fn new(number: DepotNumber, store: S) -> Depot<S>
        ensures { view S.meaning result ≡ fresh_view number.number (S.meaning store) }
    {
        Depot {
            number,
            tills: [None; TILLS],
            openings: 0,
            store,
        }
    }

    // May the part have a record?
    fn has_part(&self, part: u32) -> bool
        ensures { result ≡ part_ok (S.meaning self.now.store) part }
    {
        (1..=self.store.greatest()).contains(&part)
    }

    // The record of a part, if it has one.
    pub(crate) fn look_up(&self, part: u32) -> Option<Kept>
        ensures { result ≡ kept_in ((S.meaning self.now.store).records part) }
    {
        let mut account = Account::blank();
        let version = self.store.look_up(part, &mut account)?;
        Some(Kept { version, account })
    }

    // The record of a part, which has to have one.
    pub(crate) fn kept(&self, part: u32) -> Result<Kept, Refusal>
        ensures { result ≡ kept_answer (view S.meaning self.now) part }
    {
        if !self.has_part(part) {
            return Err(Refusal::OutOfRange);
        }
        self.look_up(part).ok_or(Refusal::NoAccount)
    }

    // Puts a fresh account as version 1 and answers 1.
    pub fn create(&mut self, part: u32, reserve: u32) -> Result<u32, Refusal>
        ensures { Created (view S.meaning self.old) part reserve result (view S.meaning self.new) }
    {
        if !self.has_part(part) || reserve > LIMIT {
            return Err(Refusal::OutOfRange);
        }
        if self.look_up(part).is_some() {
            return Err(Refusal::AccountExists);
        }
        let account = Account::fresh(reserve)?;
        self.store.put(part, 1, &account)?;
        Ok(1)
    }

    // The stock of a part.
    pub fn stock(&self, part: u32) -> Result<u64, Refusal>
        ensures { result ≡ stock_answer (view S.meaning self.now) part }
    {
        let kept = self.kept(part)?;
        Ok(kept.account.stock())
    }

    // What this depot may issue of a part.
    pub fn own_free(&self, part: u32) -> Result<u64, Refusal>
        ensures { result ≡ own_free_answer (view S.meaning self.now) part }
    {
        let kept = self.kept(part)?;
        Ok(kept.account.free(self.number))
    }

    // Whom to call for an amount of a part: the other depot with most free stock, if one has enough.
    pub fn advise(&self, part: u32, amount: u32) -> Result<Option<DepotNumber>, Refusal>
        ensures { named_in result ≡ advise_answer (view S.meaning self.now) part amount }
    {
        if !(1..=LIMIT).contains(&amount) {
            return Err(Refusal::OutOfRange);
        }
        let kept = self.kept(part)?;
        Ok(kept.account.fullest(self.number, amount))
    }

    // Writes the item of a part's stored account into a buffer from a place on and answers the item's length.
    pub fn send(&self, part: u32, buffer: &mut [u8], place: usize) -> Result<usize, Refusal>
        ensures answer { result ≡ send_answer (view S.meaning self.now) part buffer.old place }
        ensures bytes { buffer.new ≡ send_left (view S.meaning self.now) part buffer.old place }
    {
        if place > buffer.len() {
            return Err(Refusal::OutOfRange);
        }
        let kept = self.kept(part)?;
        write_account(buffer, place, part, &kept.account)
    }
}
