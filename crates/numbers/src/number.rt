// A number is written in groups of seven bits, lowest first, the top bit set on every byte but its last.
ghost use Rattle.std.specs.Prelude.{◌≡◌, length, drop};
ghost use Rattle.numbers.specs.Numbers.{number_bytes, room_for, written, front_number, refusal_at, number_at};

use account::refusal::Refusal;
use account::tally::LIMIT;

// The place of a number's first group, which may be zero.
const FIRST_GROUP: usize = 0;

// The most bytes of a number.
const LONGEST: usize = 5;

// Why bytes are no number: they end before it does, or it is not in shortest form or too large.
#[derive(Clone, Copy)]
pub(crate) enum Fault {
    Short,
    Wrong,
}

impl Fault {
    // The refusal for a number that begins at a place.
    fn at(self, place: usize) -> Refusal
        ensures { result ≡ refusal_at place self }
    {
        match self {
            Fault::Short => Refusal::CutShort { place },
            Fault::Wrong => Refusal::Malformed { place },
        }
    }
}

// How many bytes the number takes.
#[tactic(auto, unfolding(crate::specs::Numbers::number_bytes))]
pub fn number_len(n: u32) -> usize
    ensures { result ≡ length (number_bytes n) }
{
    match n {
        0..=0x7f => 1,
        0x80..=0x3fff => 2,
        0x4000..=0x1f_ffff => 3,
        0x20_0000..=0xfff_ffff => 4,
        _ => 5,
    }
}

// Writes the number at the front of `out` and answers how many bytes it took, or leaves `out` as it was where it does not fit.
pub fn write_number(out: &mut [u8], n: u32) -> Option<usize>
    ensures answer { result ≡ room_for out.old n }
    ensures bytes { out.new ≡ written out.old n }
{
    let used = number_len(n);
    if out.len() < used {
        return None;
    }
    let mut left = n;
    for byte in &mut out[..used - 1] {
        *byte = (128 + left % 128) as u8;
        left /= 128;
    }
    out[used - 1] = left as u8;
    Some(used)
}

// The number at the front of the bytes, and how many of them it takes.
fn front_number(bytes: &[u8]) -> Result<(u32, usize), Fault>
    ensures { result ≡ front_number bytes.now }
{
    let mut value = 0;
    let mut weight = 1;
    for (i, byte) in bytes.iter().enumerate() {
        value += u64::from(*byte % 128) * weight;
        if *byte < 128 {
            if *byte == 0 && i > FIRST_GROUP {
                return Err(Fault::Wrong);
            }
            if value > u64::from(LIMIT) {
                return Err(Fault::Wrong);
            }
            return Ok((value as u32, i + 1));
        }
        if i + 1 == LONGEST {
            return Err(Fault::Wrong);
        }
        weight *= 128;
    }
    Err(Fault::Short)
}

// The bytes from a place on: none past the end.
fn tail(bytes: &[u8], place: usize) -> &[u8]
    ensures { result.now ≡ drop place bytes.now }
{
    &bytes[place.min(bytes.len())..]
}

// The number at a place, and the place after it.
pub fn read_number(bytes: &[u8], place: usize) -> Result<(u32, usize), Refusal>
    ensures { result ≡ number_at bytes.now place }
{
    let (n, used) = front_number(tail(bytes, place)).map_err(|fault| fault.at(place))?;
    Ok((n, place + used))
}
