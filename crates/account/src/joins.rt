// The greater of each pair of counts, and how many counts rose.
ghost use Rattle.std.specs.Prelude.{◌≡◌, max};
ghost use Rattle.account.specs.Counter.{total};
ghost use Rattle.account.specs.Joins.{joined, rose, risen};
ghost use Rattle.account.specs.Tallies.{count, handed, row_of};

use crate::depot_number::DepotNumber;
use crate::tally::{Row, Tally};
use std::array;

impl Row {
    // The greater of each pair of counts.
    fn greater(self, other: Row) -> Row
        ensures { result ≡ row_of (λ j. max (count self j) (count other j)) }
    {
        Row {
            counts: DepotNumber::all().map(|depot| self.count(depot).max(other.count(depot))),
        }
    }

    // 1 for each count that is higher in the other row, and 0 for the others.
    fn rises(self, after: Row) -> Row
        ensures { result ≡ row_of (λ j. rose (count self j) (count after j)) }
    {
        Row {
            counts: DepotNumber::all().map(|depot| u32::from(
                self.count(depot) < after.count(depot),
            )),
        }
    }

    // How many counts are higher in the other row.
    fn risen(self, after: Row) -> u32
        ensures { result ≡ total 8 (λ j. rose (count self j) (count after j)) }
    {
        self.rises(after).total() as u32
    }
}

impl Tally {
    // The greater of each pair of counts; the reserve is this one's.
    pub(crate) fn joined(&self, other: &Tally) -> Tally
        ensures { result ≡ joined self.now other.now }
    {
        Tally {
            reserve: self.reserve,
            rows: array::from_fn(|i| self.rows[i].greater(other.rows[i])),
            issued: self.issued.greater(other.issued),
        }
    }

    // How many counts of each row are higher in the other tally.
    fn rises(&self, after: &Tally) -> Row
        ensures { result ≡ row_of (λ i. total 8 (λ j. rose (handed self.now i j) (handed after.now i j))) }
    {
        Row {
            counts: array::from_fn(|i| self.rows[i].risen(after.rows[i])),
        }
    }

    // How many of the 72 counts are higher in the other tally.
    pub(crate) fn risen(&self, after: &Tally) -> u32
        ensures { result ≡ risen self.now after.now }
    {
        self.rises(after).total() as u32 + self.issued.risen(after.issued)
    }
}
