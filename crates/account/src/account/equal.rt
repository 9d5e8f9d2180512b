// Accounts are equal when their reserves and all 72 counts are.
ghost use Rattle.std.specs.Prelude.{◌≡◌, Decides};
ghost use Rattle.account.specs.Equality.{account_eq};
ghost use Rattle.account.specs.EqualitySound.{account_laws};

use super::Account;

impl PartialEq for Account {
    ghost eq = { account_eq };

    ghost laws = { account_laws };

    fn eq(&self, other: &Account) -> bool
        ensures answer { result ≡ account_eq self.now other.now }
        ensures exact { Decides result (self.now ≡ other.now) }
    {
        self.tally == other.tally
    }
}
