// Writing account items and remarks into a buffer.
ghost use Rattle.std.specs.Prelude.{◌≡◌};
ghost use Rattle.items.specs.Writing.{account_answer, account_left, remark_answer, remark_left};

use crate::coded::{Coded, coded_len, put_coded};
use crate::item::{Kind, LONGEST_REMARK};
use account::account::Account;
use account::part::is_part;
use account::refusal::Refusal;

// Writes the account of a part as an item from a place on and answers the item's length. A refusal leaves the buffer as it was.
pub fn write_account(
    buffer: &mut [u8],
    place: usize,
    part: u32,
    account: &Account,
) -> Result<usize, Refusal>
    ensures answer { result ≡ account_answer buffer.old place part account.now }
    ensures bytes { buffer.new ≡ account_left buffer.old place part account.now }
{
    if !is_part(part) || place > buffer.len() {
        return Err(Refusal::OutOfRange);
    }
    let tally = account.tally();
    let front = [part, tally.reserve];
    let body = coded_len(&front) + coded_len(&tally.rows) + tally.issued.len();
    let head = [u32::from(Kind::Account), body as u32];
    let length = coded_len(&head) + body;
    if buffer.len() - place < length {
        return Err(Refusal::NoRoom);
    }
    let next = put_coded(buffer, place, &head);
    let next = put_coded(buffer, next, &front);
    let next = put_coded(buffer, next, &tally.rows);
    let _ = tally.issued.put(buffer, next);
    Ok(length)
}

// Writes a remark as an item from a place on and answers the item's length. A refusal leaves the buffer as it was.
pub fn write_remark(buffer: &mut [u8], place: usize, text: &[u8]) -> Result<usize, Refusal>
    ensures answer { result ≡ remark_answer buffer.old place text.now }
    ensures bytes { buffer.new ≡ remark_left buffer.old place text.now }
{
    let count = text.len();
    if count > LONGEST_REMARK as usize || place > buffer.len() {
        return Err(Refusal::OutOfRange);
    }
    let head = [u32::from(Kind::Remark), count as u32];
    let length = coded_len(&head) + count;
    if buffer.len() - place < length {
        return Err(Refusal::NoRoom);
    }
    let next = put_coded(buffer, place, &head);
    buffer[next..next + count].copy_from_slice(text);
    Ok(length)
}
