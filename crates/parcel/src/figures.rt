// The figures of an account.
ghost use Rattle.std.specs.Prelude.{◌≡◌};
ghost use Rattle.account.specs.Accounts.{free_of};
ghost use Rattle.account.specs.Tallies.{eight};
ghost use Rattle.parcel.specs.Lines.{figures_of};

use account::account::Account;
use account::depot_number::DepotNumber;

#[derive(Clone, Copy)]
pub struct Figures {
    pub part: u32,
    pub reserve: u32,
    pub stock: u64,
    // of the depots 1 to 8
    pub free: [u64; 8],
}

// The free stocks of the depots 1 to 8.
fn free_stocks(account: &Account) -> [u64; 8]
    ensures { result ≡ eight (free_of account.now) }
{
    DepotNumber::all().map(|depot| account.free(depot))
}

impl Figures {
    pub fn of(part: u32, account: &Account) -> Figures
        ensures { result ≡ figures_of part account.now }
    {
        Figures {
            part,
            reserve: account.tally().reserve,
            stock: account.stock(),
            free: free_stocks(account),
        }
    }
}
