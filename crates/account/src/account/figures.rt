// What an account says of its depots.
ghost use Rattle.std.specs.Prelude.{◌≡◌, pos};
ghost use Rattle.account.specs.Tallies.{free, stock};

use super::Account;
use crate::depot_number::DepotNumber;

impl Account {
    // The free stock of a depot: what it may issue or hand over without a call.
    pub fn free(&self, depot: DepotNumber) -> u64
        ensures { pos result ≡ free self.now.tally depot.number }
    {
        self.tally.had(depot) - self.tally.gave(depot)
    }

    // The stock: the reserve, and what was taken in less what was issued.
    pub fn stock(&self) -> u64
        ensures { pos result ≡ stock self.now.tally }
    {
        let issued = self.tally.issued.total();
        u64::from(self.tally.reserve) + self.tally.taken_in() - issued
    }
}
