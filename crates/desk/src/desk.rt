// The three depots of a desk.
use crate::place::Place;
use store::window::Window;
use table::table::Table;

pub mod feed;
pub mod line;
pub mod start;

// Depots 1 and 2 stand on tables, depot 3 on a window over one.
#[derive(Drop)]
pub struct Desk<'a> {
    one: Place<Table<'a>>,
    two: Place<Table<'a>>,
    three: Place<Window<Table<'a>>>,
}
