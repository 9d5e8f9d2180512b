// Drafts.
ghost use Rattle.std.specs.Prelude.{◌≡◌};
ghost use Rattle.depot.specs.Tills.{is_of};

use crate::kept::Kept;
use crate::slip::Slip;

// A part's record that is being worked on in a till.
#[derive(Clone, Copy)]
pub struct Draft {
    pub(crate) part: u32,
    pub(crate) serial: u32,
    pub(crate) kept: Kept,
}

impl Draft {
    // Is it this slip's?
    pub(crate) fn is_of(&self, slip: &Slip) -> bool
        ensures { result ≡ is_of self.now slip.now }
    {
        self.serial == slip.serial && self.kept.version == slip.version
    }
}
