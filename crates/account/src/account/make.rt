// From a tally to an account, where it keeps the rules, and back.
ghost use Rattle.std.specs.Prelude.{◌≡◌};
ghost use Rattle.account.specs.Accounts.{checked};

use super::Account;
use crate::tally::Tally;

impl Tally {
    // The account of these numbers, exactly when they are lawful.
    pub fn check(self) -> Option<Account>
        ensures { result ≡ checked self }
    {
        if self.ranged() && self.covered() {
            Some(Account { tally: self })
        } else {
            None
        }
    }
}

impl Account {
    // The reserve and the 72 counts.
    pub fn tally(&self) -> Tally
        ensures { result ≡ self.now.tally }
    {
        self.tally
    }
}
