// A store that is lent is a store, with the same meaning.
use crate::store::Store;
use account::account::Account;
use account::refusal::Refusal;

impl<S: Store> Store for &mut S {
    ghost meaning = { λ s. S.Store.meaning s.now };

    ghost sound = { λ s. S.Store.sound s.now };

    fn greatest(&self) -> u32 {
        S::greatest(*self)
    }

    fn layer(&self) -> u32 {
        S::layer(*self)
    }

    fn look_up(&self, part: u32, into: &mut Account) -> Option<u32> {
        S::look_up(*self, part, into)
    }

    fn put(&mut self, part: u32, version: u32, account: &Account) -> Result<(), Refusal> {
        S::put(*self, part, version, account)
    }
}
