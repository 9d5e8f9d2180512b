// The trait: a store is what it means, and each call is told by that meaning.
ghost use Rattle.std.specs.Prelude.{◌≡◌};
ghost use Rattle.store.specs.Meaning.{Meaning, Sound, version_in, account_in, put_answer, After};

use account::account::Account;
use account::refusal::Refusal;

pub trait Store {
    ghost meaning: { Self → Meaning };

    // Every store's meaning is within its ranges.
    ghost sound: { (s : Self) → Sound (meaning s) };

    // The greatest part that may have a record.
    fn greatest(&self) -> u32
        ensures { result ≡ (meaning self.now).greatest };

    // The store's own layer; a bottom store's is 0.
    fn layer(&self) -> u32
        ensures { result ≡ (meaning self.now).layer };

    // The version of a part's record, whose account is copied to `into`; or absent, and `into` stays.
    fn look_up(&self, part: u32, into: &mut Account) -> Option<u32>
        ensures answer { result ≡ version_in ((meaning self.now).records part) }
        ensures copied { into.new ≡ account_in ((meaning self.now).records part) into.old };

    // Makes this the part's record, or refuses and leaves the meaning as it was.
    fn put(&mut self, part: u32, version: u32, account: &Account) -> Result<(), Refusal>
        ensures answer { result ≡ put_answer (meaning self.old) part version }
        ensures after { After (meaning self.old) part version account.now result (meaning self.new) };
}
