// Reading account items and remarks.
ghost use Rattle.std.specs.Prelude.{◌≡◌, ◌≤◌, length};
ghost use Rattle.items.specs.AccountItems.{tally_at, part_at, numbers_at, in_body, account_at, only_account};
ghost use Rattle.items.specs.Parcels.{text_of, only_remark};

use crate::coded::{Coded, read_coded};
use crate::item::{AccountItem, Body, Kind, read_body, read_kind};
use account::part::is_part;
use account::refusal::Refusal;
use account::tally::{Row, Tally};
use numbers::number::read_number;

// The numbers of an account from a place on, and the place after them.
pub fn read_tally(bytes: &[u8], place: usize) -> Result<(Tally, usize), Refusal>
    ensures { result ≡ tally_at bytes.now place }
{
    let (reserve, next) = read_number(bytes, place)?;
    let (rows, next) = read_coded(bytes, next)?;
    let (issued, next) = Row::read(bytes, next)?;
    Ok((
        Tally {
            reserve,
            rows,
            issued,
        },
        next,
    ))
}

// The part at a place, and the place after it.
pub fn read_part(bytes: &[u8], place: usize) -> Result<(u32, usize), Refusal>
    ensures { result ≡ part_at bytes.now place }
{
    let (part, next) = read_number(bytes, place)?;
    if !is_part(part) {
        return Err(Refusal::Malformed { place });
    }
    Ok((part, next))
}

// The part and the numbers from a place on, and the place after them.
fn read_numbers(bytes: &[u8], place: usize) -> Result<(AccountItem, usize), Refusal>
    ensures { result ≡ numbers_at bytes.now place }
{
    let (part, next) = read_part(bytes, place)?;
    let (tally, next) = read_tally(bytes, next)?;
    Ok((AccountItem { part, tally }, next))
}

// The account item whose numbers are all of a body.
fn read_in_body(bytes: &[u8], body: Body) -> Result<(AccountItem, usize), Refusal>
    requires { body.end ≤ length bytes.now }
    ensures { result ≡ in_body bytes.now body }
{
    let Body { from, end } = body;
    let (item, last) = read_numbers(&bytes[0..end], from)?;
    if last != end {
        return Err(Refusal::Malformed { place: last });
    }
    Ok((item, last))
}

// The account item at a place, and the place after it.
#[tactic(auto, unfolding(crate::specs::AccountItems::account_at))]
pub fn read_account_at(bytes: &[u8], place: usize) -> Result<(AccountItem, usize), Refusal>
    ensures { result ≡ account_at bytes.now place }
{
    let (kind, next) = read_kind(bytes, place)?;
    if kind == Kind::Remark {
        return Err(Refusal::OtherKind { place });
    }
    let body = read_body(bytes, kind, next)?;
    read_in_body(bytes, body)
}

// The one account item that the bytes are.
pub fn read_account(bytes: &[u8]) -> Result<AccountItem, Refusal>
    ensures { result ≡ only_account bytes.now }
{
    let (item, end) = read_account_at(bytes, 0)?;
    if end != bytes.len() {
        return Err(Refusal::Malformed { place: end });
    }
    Ok(item)
}

// The text of the one remark item that the bytes are.
pub fn read_remark(bytes: &[u8]) -> Result<&[u8], Refusal>
    ensures { text_of result ≡ only_remark bytes.now }
{
    let (kind, next) = read_kind(bytes, 0)?;
    if kind == Kind::Account {
        return Err(Refusal::OtherKind { place: 0 });
    }
    let Body { from, end } = read_body(bytes, kind, next)?;
    if end != bytes.len() {
        return Err(Refusal::Malformed { place: end });
    }
    Ok(&bytes[from..])
}
