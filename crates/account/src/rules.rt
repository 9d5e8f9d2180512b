// Whether a tally keeps the rules.
ghost use Rattle.std.specs.Prelude.{◌≡◌, ◌&&◌, length};
ghost use Rattle.account.specs.Lawful.{shaped, within, ranged, covered};
ghost use Rattle.account.specs.Tallies.{count, counter_of};

use crate::depot_number::DepotNumber;
use crate::tally::{LIMIT, Row, Tally};

impl Row {
    // Is no count above the limit?
    fn ranged(self) -> bool
        ensures tells { result ≡ within (count self) }
        ensures long { length self.counts ≡ 8 }
    {
        self.counts.iter().all(|count| *count <= LIMIT)
    }
}

impl Tally {
    // Is no number above the limit?
    pub(crate) fn ranged(&self) -> bool
        ensures { result ≡ (shaped self.now && ranged (counter_of self.now)) }
    {
        if self.reserve > LIMIT {
            return false;
        }
        self.rows.iter().all(|row| row.ranged()) && self.issued.ranged()
    }

    // Is no free stock below 0?
    pub(crate) fn covered(&self) -> bool
        ensures { result ≡ covered (counter_of self.now) }
    {
        DepotNumber::all()
            .iter()
            .all(|depot| self.gave(*depot) <= self.had(*depot))
    }
}
