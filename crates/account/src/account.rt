// An account is a tally that keeps the rules, by its type.
ghost use Rattle.std.specs.Prelude.{◌≡◌, true};
ghost use Rattle.account.specs.Lawful.{lawful};

use crate::tally::Tally;

pub mod advice;
pub mod book;
pub mod equal;
pub mod figures;
pub mod fresh;
pub mod join;
pub mod make;

#[derive(Clone, Copy)]
pub struct Account {
    tally: Tally,
    ghost law: { lawful tally ≡ true },
}
