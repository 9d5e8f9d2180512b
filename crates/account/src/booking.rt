// What a depot may book on an account.
ghost use Rattle.std.specs.Prelude.{◌≡◌};
ghost use Rattle.account.specs.Bookings.{amount_of, in_range};

use crate::depot_number::DepotNumber;
use crate::tally::LIMIT;

// Plain numbers: whether they are in range is asked when they are booked.
#[derive(Clone, Copy)]
pub enum Booking {
    // goods come in
    TakeIn { amount: u32 },
    // goods go out
    Issue { amount: u32 },
    // a share of the free stock goes to another depot
    HandOver { amount: u32, to: u32 },
}

impl Booking {
    pub(crate) fn amount(self) -> u32
        ensures { result ≡ amount_of self }
    {
        match self {
            Booking::TakeIn { amount }
            | Booking::Issue { amount }
            | Booking::HandOver { amount, .. } => amount,
        }
    }

    // Is the amount from 1 to the limit, and the other depot one of the eight?
    pub fn is_in_range(self) -> bool
        ensures { result ≡ in_range self }
    {
        let amount = self.amount();
        let ranged = (1..=LIMIT).contains(&amount);
        match self {
            Booking::HandOver { to, .. } => ranged && DepotNumber::try_from(to).is_ok(),
            _ => ranged,
        }
    }
}
