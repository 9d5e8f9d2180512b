// A fresh account.
ghost use Rattle.std.specs.Prelude.{◌≡◌, ◌*◌, ◌<◌, take, drop};
ghost use Rattle.account.specs.Accounts.{fresh, fresh_answer};
ghost use Rattle.account.specs.Joins.{numbers_in};

use super::Account;
use crate::refusal::Refusal;
use crate::tally::{LIMIT, Row, Tally};

// Row i of counts that stand one after another.
fn cut(flat: &[u32; 72], i: usize) -> Row
    requires { i < 9 }
    ensures { result.counts ≡ take 8 (drop (8 * i) flat.now) }
{
    let mut counts = [0; 8];
    counts.copy_from_slice(&flat[8 * i..8 * i + 8]);
    Row { counts }
}

// A reserve and 72 zero counts.
fn zeros(reserve: u32) -> Tally
    ensures { result ≡ fresh reserve }
{
    let flat = [0; 72];
    let issued = cut(&flat, 8);
    let mut rows = [issued; 8];
    for i in 0..8 {
        rows[i] = cut(&flat, i);
    }
    Tally {
        reserve,
        rows,
        issued,
    }
}

impl Account {
    // An account with nothing in it, as a place to copy another to.
    pub fn blank() -> Account
        ensures { result.tally ≡ fresh 0 }
    {
        let tally = zeros(0);
        Account { tally }
    }

    // An account with a reserve and no goods booked yet.
    pub fn fresh(reserve: u32) -> Result<Account, Refusal>
        ensures { numbers_in result ≡ fresh_answer reserve }
    {
        if reserve > LIMIT {
            return Err(Refusal::OutOfRange);
        }
        let tally = zeros(reserve);
        Ok(Account { tally })
    }
}
