// A depot: its number, its tills and its store.
use crate::draft::Draft;
use account::depot_number::DepotNumber;
use store::store::Store;

pub mod accounts;
pub mod drafts;

// How many tills a depot has.
const TILLS: usize = 4;

#[derive(Drop)]
pub struct Depot<S: Store> {
    number: DepotNumber,
    // each has a draft or is idle
    tills: [Option<Draft>; TILLS],
    openings: u32,
    store: S,
}
