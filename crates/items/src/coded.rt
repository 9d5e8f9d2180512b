// What stands in an item one after another: numbers, and rows of eight numbers.
ghost use Rattle.std.specs.Prelude.{◌≡◌, ℕ, ◌+◌, ◌*◌, ◌^◌, ◌<◌, ◌≤◌, List, length};
ghost use Rattle.std.specs.List.{flat_map};
ghost use Rattle.items.specs.AccountItems.{row_bytes, row_at};
ghost use Rattle.items.specs.Writing.{put};
ghost use Rattle.numbers.specs.Numbers.{number_bytes, number_at};
ghost use Rattle.numbers.specs.Reading.{Reading, many};

use account::refusal::Refusal;
use account::tally::{NO_COUNTS, Row};
use numbers::number::{number_len, read_number, write_number};

pub(crate) trait Coded: Copy {
    // The bytes of a value, the reading of one at a place, and the most bytes that one takes.
    ghost written: { Self → List ℕ };

    ghost reading: { Reading Self };

    ghost most: { ℕ };

    // A value to be read over.
    const NONE: Self;

    // How many bytes the value takes.
    fn len(self) -> usize
        ensures sum { result ≡ length (written self) }
        ensures within { result ≤ most };

    // Writes the value at a place, where there is room for it, and answers the place after it.
    fn put(self, buffer: &mut [u8], place: usize) -> usize
        requires { place + length (written self) ≤ length buffer.old }
        ensures after { result ≡ place + length (written self) }
        ensures left { buffer.new ≡ put buffer.old place (written self) };

    // The value at a place, and the place after it.
    fn read(bytes: &[u8], place: usize) -> Result<(Self, usize), Refusal>
        ensures { result ≡ reading bytes.now place };
}

impl Coded for u32 {
    ghost written = { number_bytes };

    ghost reading = { number_at };

    ghost most = { 5 };

    const NONE: u32 = 0;

    fn len(self) -> usize {
        number_len(self)
    }

    fn put(self, buffer: &mut [u8], place: usize) -> usize {
        match write_number(&mut buffer[place..], self) {
            Some(used) => place + used,
            None => unreachable(),
        }
    }

    fn read(bytes: &[u8], place: usize) -> Result<(u32, usize), Refusal> {
        read_number(bytes, place)
    }
}

impl Coded for Row {
    ghost written = { row_bytes };

    ghost reading = { row_at };

    ghost most = { 40 };

    const NONE: Row = NO_COUNTS;

    fn len(self) -> usize {
        coded_len(&self.counts)
    }

    fn put(self, buffer: &mut [u8], place: usize) -> usize {
        put_coded(buffer, place, &self.counts)
    }

    fn read(bytes: &[u8], place: usize) -> Result<(Row, usize), Refusal> {
        let (counts, next) = read_coded(bytes, place)?;
        Ok((Row { counts }, next))
    }
}

// How many bytes the values take.
pub(crate) fn coded_len<E: Coded>(values: &[E]) -> usize
    requires { E.most * length values.now < 2 ^ 64 }
    ensures sum { result ≡ length (flat_map E.written values.now) }
    ensures within { result ≤ E.most * length values.now }
{
    let mut total = 0;
    for value in values {
        total += value.len();
    }
    total
}

// Writes the values one after another, where there is room for them, and answers the place after them.
pub(crate) fn put_coded<E: Coded>(buffer: &mut [u8], place: usize, values: &[E]) -> usize
    requires { place + length (flat_map E.written values.now) ≤ length buffer.old }
    ensures after { result ≡ place + length (flat_map E.written values.now) }
    ensures left { buffer.new ≡ put buffer.old place (flat_map E.written values.now) }
{
    let mut next = place;
    for value in values {
        next = value.put(buffer, next);
    }
    next
}

// Eight values from a place on, and the place after them.
pub(crate) fn read_coded<E: Coded>(bytes: &[u8], place: usize) -> Result<([E; 8], usize), Refusal>
    ensures { result ≡ many E.reading 8 bytes.now place }
{
    let mut values = [E::NONE; 8];
    let mut next = place;
    for slot in values.iter_mut() {
        (*slot, next) = E::read(bytes, next)?;
    }
    Ok((values, next))
}
