// One place in a table's memory.
ghost use Rattle.std.specs.Prelude.{◌≡◌};
ghost use Rattle.table.specs.Tables.{account_of, used, held, holds};

use account::account::Account;
use account::tally::Tally;
use store::bottom::in_range;

// Any numbers at all.
#[derive(Clone, Copy)]
pub struct Slot {
    pub part: u32,
    pub version: u32,
    pub tally: Tally,
}

impl Slot {
    // The account of a used slot.
    #[tactic(auto, unfolding(crate::specs::Tables::account_of))]
    pub(crate) fn account(&self) -> Option<Account>
        ensures { result ≡ account_of self.now }
    {
        if in_range(self.part, self.version) {
            self.tally.check()
        } else {
            None
        }
    }

    pub(crate) fn is_used(&self) -> bool
        ensures { result ≡ used self.now }
    {
        self.account().is_some()
    }

    // The account of a slot that holds the part.
    pub(crate) fn held(&self, part: u32) -> Option<Account>
        ensures { result ≡ held part self.now }
    {
        if self.part == part {
            self.account()
        } else {
            None
        }
    }

    pub(crate) fn holds(&self, part: u32) -> bool
        ensures { result ≡ holds part self.now }
    {
        self.held(part).is_some()
    }
}
