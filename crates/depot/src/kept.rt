// A stored record.
use account::account::Account;

#[derive(Clone, Copy)]
pub struct Kept {
    pub version: u32,
    pub account: Account,
}
