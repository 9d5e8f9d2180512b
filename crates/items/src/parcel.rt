// Handing out the items of a parcel.
ghost use Rattle.std.specs.Prelude.{◌≡◌};
ghost use Rattle.std.specs.Option.{unwrap_or};
ghost use Rattle.items.specs.Parcels.{kind_in, stands_at, item_at, shown, next_item, next_place, ItemsAreTheParcel};

use crate::item::{Body, Kind, read_body, read_kind};
use account::refusal::Refusal;

// All bytes of an item, as a part of the parcel.
#[derive(Clone, Copy)]
pub enum Item<'a> {
    Account(&'a [u8]),
    Remark(&'a [u8]),
}

// An item, and its place in the parcel.
#[derive(Clone, Copy)]
pub struct Handed<'a> {
    pub place: usize,
    pub item: Item<'a>,
}

// Where a reader stands.
#[derive(Clone, Copy)]
pub struct Place {
    at: usize,
}

// Puts the place back on an item's first byte, until the item is accepted.
struct Rewind<'a> {
    place: &'a mut Place,
    back: Option<usize>,
}

impl Drop for Rewind<'_> {
    fn drop(self)
        ensures { self.exit.0.now.at ≡ unwrap_or self.entry.back self.entry.place.now.at }
    {
        if let Some(first) = self.back {
            self.place.at = first;
        }
        let Rewind { place: _, back: _ } = self;
    }
}

// Goes past the item at the place and answers its kind. Where it is refused, the place is as it was.
fn pass_item(place: &mut Place, parcel: &[u8]) -> Result<Kind, Refusal>
    ensures answer { result ≡ kind_in (item_at parcel.now place.old.at) }
    ensures stands { place.new.at ≡ stands_at place.old.at (item_at parcel.now place.old.at) }
{
    let back = Some(place.at);
    let mut guard = Rewind { place, back };
    let (kind, next) = read_kind(parcel, guard.place.at)?;
    guard.place.at = next;
    let Body { from: _, end } = read_body(parcel, kind, guard.place.at)?;
    guard.place.at = end;
    guard.back = None;
    Ok(kind)
}

// Reads a parcel from its start.
#[derive(Drop)]
pub struct Reader<'a> {
    parcel: &'a [u8],
    place: Place,
}

impl<'a> Reader<'a> {
    // On the first byte. What a reader hands out from there is, end to end, the parcel up to its place.
    pub fn new(parcel: &'a [u8]) -> Reader<'a>
        ensures at { result.place.at ≡ 0 }
        ensures of { result.parcel.now ≡ parcel.now }
        ensures law { ItemsAreTheParcel }
    {
        Reader {
            parcel,
            place: Place { at: 0 },
        }
    }

    // Where the reader stands.
    pub fn place(&self) -> usize
        ensures { result ≡ self.now.place.at }
    {
        self.place.at
    }

    // The next item, or none at the end. At an item that is refused the reader is back on its first byte.
    pub fn next_item(&mut self) -> Result<Option<Handed<'a>>, Refusal>
        ensures answer { shown result ≡ next_item self.old.parcel.now self.old.place.at }
        ensures stands { self.new.place.at ≡ next_place self.old.parcel.now self.old.place.at }
        ensures keeps { self.new.parcel.now ≡ self.old.parcel.now }
    {
        let parcel = self.parcel;
        let first = self.place.at;
        if first >= parcel.len() {
            return Ok(None);
        }
        let kind = pass_item(&mut self.place, parcel)?;
        let whole = &parcel[first..self.place.at];
        let item = match kind {
            Kind::Account => Item::Account(whole),
            Kind::Remark => Item::Remark(whole),
        };
        Ok(Some(Handed { place: first, item }))
    }
}
