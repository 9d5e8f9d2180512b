// The join of two accounts.
ghost use Rattle.std.specs.Prelude.{◌≡◌};
ghost use Rattle.account.specs.Joins.{join_answer, numbers_in, risen};

use super::Account;
use crate::refusal::Refusal;

impl Account {
    // The account with the greater of each pair of counts.
    pub fn join(&self, other: &Account) -> Result<Account, Refusal>
        ensures { numbers_in result ≡ join_answer self.now.tally other.now.tally }
    {
        if self.tally.reserve != other.tally.reserve {
            return Err(Refusal::OtherReserve);
        }
        let tally = self.tally.joined(&other.tally);
        if !tally.covered() {
            return Err(Refusal::Contradiction);
        }
        Ok(Account { tally })
    }

    // How many of the 72 counts are higher in the other account.
    pub fn risen(&self, after: &Account) -> u32
        ensures { result ≡ risen self.now.tally after.now.tally }
    {
        self.tally.risen(&after.tally)
    }
}
