// What is told of an item.
ghost use Rattle.std.specs.Prelude.{◌≡◌};
ghost use Rattle.items.specs.AccountItems.{account_at};
ghost use Rattle.items.specs.Parcels.{seen};
ghost use Rattle.parcel.specs.Lines.{words_of, of_account, told_of};

use crate::figures::Figures;
use account::refusal::Refusal;
use items::parcel::{Handed, Item};
use items::read::{read_account_at, read_remark};

#[derive(Clone, Copy)]
pub enum Told<'a> {
    // a lawful account
    Account(Figures),
    // numbers with a negative free stock
    Contradiction { part: u32, reserve: u32 },
    // an item whose body is refused
    Unread(Refusal),
    Remark(&'a [u8]),
}

// An item's place, and what is told of it.
#[derive(Clone, Copy)]
pub struct Line<'a> {
    pub place: usize,
    pub told: Told<'a>,
}

// What is told of the account item at a place.
fn account_told(parcel: &[u8], place: usize) -> Told<'_>
    ensures { words_of result ≡ of_account (account_at parcel.now place) }
{
    match read_account_at(parcel, place) {
        Ok((item, _)) => match item.tally.check() {
            Some(account) => Told::Account(Figures::of(item.part, &account)),
            None => Told::Contradiction {
                part: item.part,
                reserve: item.tally.reserve,
            },
        },
        Err(refusal) => Told::Unread(refusal),
    }
}

// The line of an item that was handed out of the parcel. Places are counted from the parcel's start.
pub fn line_of<'a>(parcel: &'a [u8], handed: Handed<'a>) -> Line<'a>
    ensures place { result.place ≡ handed.entry.place }
    ensures told { words_of result.told ≡ told_of parcel.now (seen handed.entry) }
{
    let place = handed.place;
    let told = match handed.item {
        Item::Account(_) => account_told(parcel, place),
        Item::Remark(part) => match read_remark(part) {
            Ok(text) => Told::Remark(text),
            Err(refusal) => Told::Unread(refusal),
        },
    };
    Line { place, told }
}
