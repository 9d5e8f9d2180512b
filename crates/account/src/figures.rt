// The sums that free stocks and the stock are made of.
ghost use Rattle.std.specs.Prelude.{◌≡◌, ◌≤◌};
ghost use Rattle.account.specs.Counter.{total, added, had, gave};
ghost use Rattle.account.specs.Tallies.{count, handed, counter_of, row_of};

use crate::depot_number::DepotNumber;
use crate::tally::{Row, Tally};

impl Row {
    // All eight counts together.
    pub(crate) fn total(self) -> u64
        ensures sum { result ≡ total 8 (count self) }
        ensures bound { result ≤ 34359738360 }
    {
        self.counts.iter().map(|count| u64::from(*count)).sum()
    }
}

impl Tally {
    // What each depot handed over to one of them, and what that one took in.
    fn column(&self, to: DepotNumber) -> Row
        ensures { result ≡ row_of (λ i. handed self.now i to.number) }
    {
        Row {
            counts: DepotNumber::all().map(|from| self.handed(from, to)),
        }
    }

    // What each depot took in.
    fn diagonal(&self) -> Row
        ensures { result ≡ row_of (λ i. handed self.now i i) }
    {
        Row {
            counts: DepotNumber::all().map(|depot| self.handed(depot, depot)),
        }
    }

    // What a depot has had: what it took in, and what the others handed over to it.
    pub(crate) fn had(&self, depot: DepotNumber) -> u64
        ensures { result ≡ had (counter_of self.now) depot.number }
    {
        self.column(depot).total()
    }

    // What a depot has given: what it handed over to the others, and what it issued.
    pub(crate) fn gave(&self, depot: DepotNumber) -> u64
        ensures { result ≡ gave (counter_of self.now) depot.number }
    {
        let others = self.row(depot).total() - u64::from(self.handed(depot, depot));
        others + u64::from(self.issued_by(depot))
    }

    // What all depots took in.
    pub(crate) fn taken_in(&self) -> u64
        ensures sum { result ≡ added (counter_of self.now) }
        ensures bound { result ≤ 34359738360 }
    {
        self.diagonal().total()
    }
}
