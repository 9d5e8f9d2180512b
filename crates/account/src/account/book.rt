// The bookings of a depot on an account.
ghost use Rattle.std.specs.Prelude.{◌≡◌, ◌+◌, ◌≤◌, [], ◌∷◌, pos, int_lt};
ghost use Rattle.account.specs.Bookings.{booking, free_told, account_after, limit_check};
ghost use Rattle.account.specs.Counter.{decrement, transfer};
ghost use Rattle.account.specs.Refusals.{unless};
ghost use Rattle.account.specs.Tallies.{limit, free, handed, issued_by, counter_of, tally_of};
ghost use Rattle.account.specs.declared.booking.Booking.TheVariants.{TakeIn, Issue, HandOver};

use super::Account;
use crate::booking::Booking;
use crate::depot_number::DepotNumber;
use crate::refusal::Refusal;
use crate::tally::{LIMIT, Tally};

impl Account {
    // A depot takes goods in. Answers its free stock.
    pub fn take_in(&mut self, depot: DepotNumber, amount: u32) -> Result<u64, Refusal>
        ensures answer { result ≡ free_told depot.number (booking self.old.tally depot.number (TakeIn amount)) }
        ensures after { self.new ≡ account_after self.old (booking self.old.tally depot.number (TakeIn amount)) }
    {
        self.book(depot, Booking::TakeIn { amount })
    }

    // A depot issues goods from its free stock. Answers what is left of it.
    pub fn issue(&mut self, depot: DepotNumber, amount: u32) -> Result<u64, Refusal>
        ensures answer { result ≡ free_told depot.number (booking self.old.tally depot.number (Issue amount)) }
        ensures after { self.new ≡ account_after self.old (booking self.old.tally depot.number (Issue amount)) }
    {
        self.book(depot, Booking::Issue { amount })
    }

    // A depot hands free stock over to another. Answers what is left of it.
    pub fn hand_over(&mut self, depot: DepotNumber, amount: u32, to: u32) -> Result<u64, Refusal>
        ensures answer { result ≡ free_told depot.number (booking self.old.tally depot.number (HandOver amount to)) }
        ensures after { self.new ≡ account_after self.old (booking self.old.tally depot.number (HandOver amount to)) }
    {
        self.book(depot, Booking::HandOver { amount, to })
    }

    // A depot books, and is told its free stock.
    pub fn book(&mut self, depot: DepotNumber, entry: Booking) -> Result<u64, Refusal>
        ensures answer { result ≡ free_told depot.number (booking self.old.tally depot.number entry) }
        ensures after { self.new ≡ account_after self.old (booking self.old.tally depot.number entry) }
    {
        let tally = self.booked(depot, entry)?;
        *self = Account { tally };
        Ok(self.free(depot))
    }

    // The numbers after a booking.
    fn booked(&self, depot: DepotNumber, entry: Booking) -> Result<Tally, Refusal>
        ensures { result ≡ booking self.now.tally depot.number entry }
    {
        if !entry.is_in_range() {
            return Err(Refusal::OutOfRange);
        }
        match entry {
            Booking::TakeIn { amount } => self.handed(depot, depot, amount),
            Booking::Issue { amount } => {
                if self.lacks(depot, amount) {
                    return Err(Refusal::NotEnoughFree);
                }
                self.issued(depot, amount)
            }
            Booking::HandOver { amount, to } => {
                let to = DepotNumber::try_from(to)?;
                if to == depot {
                    return Err(Refusal::OwnDepot);
                }
                if self.lacks(depot, amount) {
                    return Err(Refusal::NotEnoughFree);
                }
                self.handed(depot, to, amount)
            }
        }
    }

    // Has a depot less free stock than this?
    fn lacks(&self, depot: DepotNumber, amount: u32) -> bool
        ensures { result ≡ int_lt (free self.now.tally depot.number) (pos amount) }
    {
        self.free(depot) < u64::from(amount)
    }

    // The numbers with what one depot handed to another, or took in itself, raised.
    fn handed(&self, from: DepotNumber, to: DepotNumber, amount: u32) -> Result<Tally, Refusal>
        requires { amount ≤ limit }
        ensures { result ≡ unless (limit_check (handed self.now.tally from.number to.number + amount) ∷ []) (tally_of (transfer (counter_of self.now.tally) from.number to.number amount)) }
    {
        if self.tally.handed(from, to) + amount > LIMIT {
            return Err(Refusal::LimitPassed);
        }
        Ok(self.tally.with_handed(from, to, amount))
    }

    // The numbers with what a depot issued raised.
    fn issued(&self, depot: DepotNumber, amount: u32) -> Result<Tally, Refusal>
        requires { amount ≤ limit }
        ensures { result ≡ unless (limit_check (issued_by self.now.tally depot.number + amount) ∷ []) (tally_of (decrement (counter_of self.now.tally) depot.number amount)) }
    {
        if self.tally.issued_by(depot) + amount > LIMIT {
            return Err(Refusal::LimitPassed);
        }
        Ok(self.tally.with_issued(depot, amount))
    }
}
