// One count, and a tally with one count raised.
ghost use Rattle.std.specs.Prelude.{◌≡◌, ◌+◌, ◌≤◌, true};
ghost use Rattle.account.specs.Counter.{decrement, transfer};
ghost use Rattle.account.specs.Lawful.{shaped};
ghost use Rattle.account.specs.Tallies.{limit, count, row, handed, issued_by, counter_of, tally_of, row_raised};

use crate::depot_number::DepotNumber;
use crate::tally::{Row, Tally};

impl Row {
    // The count for a depot.
    pub(crate) fn count(self, depot: DepotNumber) -> u32
        ensures { result ≡ count self depot.number }
    {
        self.counts[depot.index()]
    }

    // The row with one count raised.
    fn raised(self, depot: DepotNumber, amount: u32) -> Row
        requires { count self depot.number + amount ≤ limit }
        ensures { result ≡ row_raised self depot.number amount }
    {
        let mut counts = self.counts;
        counts[depot.index()] += amount;
        Row { counts }
    }
}

impl Tally {
    // What a depot handed over and took in.
    pub(crate) fn row(&self, depot: DepotNumber) -> Row
        ensures { result ≡ row self.now depot.number }
    {
        self.rows[depot.index()]
    }

    // What a depot handed over to another, or took in itself.
    pub(crate) fn handed(&self, from: DepotNumber, to: DepotNumber) -> u32
        ensures { result ≡ handed self.now from.number to.number }
    {
        self.rows[from.index()].counts[to.index()]
    }

    // What a depot issued.
    pub(crate) fn issued_by(&self, depot: DepotNumber) -> u32
        ensures { result ≡ issued_by self.now depot.number }
    {
        self.issued.counts[depot.index()]
    }

    // What one depot handed over to another, or took in itself, is more by an amount.
    pub(crate) fn with_handed(&self, from: DepotNumber, to: DepotNumber, amount: u32) -> Tally
        requires room { handed self.now from.number to.number + amount ≤ limit }
        requires shape { shaped self.now ≡ true }
        ensures { result ≡ tally_of (transfer (counter_of self.now) from.number to.number amount) }
    {
        let mut tally = *self;
        tally.rows[from.index()].counts[to.index()] += amount;
        tally
    }

    // What a depot issued is more by an amount.
    pub(crate) fn with_issued(&self, depot: DepotNumber, amount: u32) -> Tally
        requires room { issued_by self.now depot.number + amount ≤ limit }
        requires shape { shaped self.now ≡ true }
        ensures { result ≡ tally_of (decrement (counter_of self.now) depot.number amount) }
    {
        Tally {
            issued: self.issued.raised(depot, amount),
            ..*self
        }
    }
}
