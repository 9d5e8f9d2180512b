// What stands at the front of an item: its kind and the byte count of its body.
ghost use Rattle.std.specs.Prelude.{◌≡◌};
ghost use Rattle.std.specs.Result.{result_ok};
ghost use Rattle.items.specs.Items.{number_of, kind_numbered, kind_at, most_bytes, length_at, body_at};

use account::refusal::Refusal;
use account::tally::{LIMIT, Tally};
use numbers::number::read_number;

// The most bytes of an account item: kind 1, length 2, part 3, and 5 for the reserve and each of 72 counts.
pub const LONGEST_ACCOUNT: usize = 371;

// The most bytes of a remark.
pub const LONGEST_REMARK: u32 = 200;

#[derive(Clone, Copy, PartialEq, Eq, Debug)]
pub enum Kind {
    Account,
    Remark,
}

// A number that is no kind's.
#[derive(Clone, Copy, PartialEq, Eq, Debug)]
pub struct UnknownKind;

// What an account item says: a part and numbers in range. Whether they are lawful is the receiver's question.
#[derive(Clone, Copy)]
pub struct AccountItem {
    pub part: u32,
    pub tally: Tally,
}

// Where a body stands: its first byte and the place after its last.
#[derive(Clone, Copy)]
pub struct Body {
    pub from: usize,
    pub end: usize,
}

impl From<Kind> for u32 {
    ghost from_gives = { λ kind n. n ≡ number_of kind };

    fn from(kind: Kind) -> u32 {
        match kind {
            Kind::Account => 1,
            Kind::Remark => 2,
        }
    }
}

impl TryFrom<u32> for Kind {
    type Error = UnknownKind;

    ghost try_from_gives = { λ n r. result_ok r ≡ kind_numbered n };

    fn try_from(number: u32) -> Result<Kind, UnknownKind> {
        match number {
            1 => Ok(Kind::Account),
            2 => Ok(Kind::Remark),
            _ => Err(UnknownKind),
        }
    }
}

impl Kind {
    // The most bytes that a body of this kind may have.
    fn most_bytes(self) -> u32
        ensures { result ≡ most_bytes self }
    {
        match self {
            Kind::Account => LIMIT,
            Kind::Remark => LONGEST_REMARK,
        }
    }
}

// The kind at a place, and the place after it.
pub fn read_kind(bytes: &[u8], place: usize) -> Result<(Kind, usize), Refusal>
    ensures { result ≡ kind_at bytes.now place }
{
    let (number, next) = read_number(bytes, place)?;
    let kind = Kind::try_from(number).map_err(|_| Refusal::Malformed { place })?;
    Ok((kind, next))
}

// The byte count at a place, and the place after it.
fn read_length(bytes: &[u8], kind: Kind, place: usize) -> Result<(u32, usize), Refusal>
    ensures { result ≡ length_at kind bytes.now place }
{
    let (count, next) = read_number(bytes, place)?;
    if count > kind.most_bytes() {
        return Err(Refusal::Malformed { place });
    }
    Ok((count, next))
}

// The body whose byte count stands at a place, if the bytes hold it whole.
pub fn read_body(bytes: &[u8], kind: Kind, place: usize) -> Result<Body, Refusal>
    ensures { result ≡ body_at bytes.now kind place }
{
    let (count, from) = read_length(bytes, kind, place)?;
    if bytes.len() < from || bytes.len() - from < count as usize {
        return Err(Refusal::CutShort { place: bytes.len() });
    }
    Ok(Body {
        from,
        end: from + count as usize,
    })
}
