// Whom to call.
ghost use Rattle.std.specs.Prelude.{◌≡◌};
ghost use Rattle.account.specs.Advice.{serves, better, best_of, number_if, AdviceNamesTheFullest};

use super::Account;
use crate::depot_number::DepotNumber;

impl Account {
    // Among the other depots with at least this free stock the one with most, the lower number on a tie.
    pub fn fullest(&self, asking: DepotNumber, amount: u32) -> Option<DepotNumber>
        ensures choice { number_if result ≡ best_of self.now asking.number amount 8 }
        ensures law { AdviceNamesTheFullest }
    {
        let mut best = None;
        for depot in DepotNumber::all() {
            if self.serves(asking, amount, depot) && self.exceeds(depot, best) {
                best = Some(depot);
            }
        }
        best
    }

    // Is a depot another one, with at least this free stock?
    fn serves(&self, asking: DepotNumber, amount: u32, depot: DepotNumber) -> bool
        ensures { result ≡ serves self.now asking.number amount depot.number }
    {
        depot != asking && u64::from(amount) <= self.free(depot)
    }

    // Has a depot more free stock than the best so far?
    fn exceeds(&self, depot: DepotNumber, best: Option<DepotNumber>) -> bool
        ensures { result ≡ better self.now depot.number (number_if best) }
    {
        best.is_none_or(|other| self.free(other) < self.free(depot))
    }
}
