// Making a journal of lent bytes, and emptying it.
ghost use Rattle.std.specs.Prelude.{◌≡◌};
ghost use Rattle.journal.specs.Journals.{started};

use super::{Journal, USED};
use crate::entry::find_end;
use store::bottom::front;

// Makes the bytes an empty journal.
fn blank(bytes: &mut [u8])
    ensures { bytes.new ≡ started bytes.old }
{
    if let Some(first) = bytes.first_mut() {
        *first = 0;
    }
}

impl Journal<'_> {
    // An empty journal.
    pub fn start(bytes: &mut [u8]) -> Journal<'_>
        ensures { result.bytes.now ≡ started bytes.old }
    {
        blank(bytes);
        Journal::over(bytes)
    }

    // A journal of the entries that the bytes hold.
    pub fn over(bytes: &mut [u8]) -> Journal<'_>
        ensures { result.bytes.now ≡ bytes.old }
    {
        let end = find_end(front(bytes, USED));
        Journal { bytes, end }
    }

    // Empties the journal.
    #[tactic(auto, using(crate::proofs::Statements::started_ends))]
    pub fn clear(&mut self)
        ensures { self.new.bytes.now ≡ started self.old.bytes.now }
    {
        let Journal { bytes, end } = self;
        blank(bytes);
        *end = 0;
    }
}
