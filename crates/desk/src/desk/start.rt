// A desk with empty depots.
ghost use Rattle.std.specs.Prelude.{◌≡◌};
ghost use Rattle.desk.specs.Desks.{desk_view, start_view};

use super::Desk;
use crate::place::Place;
use crate::which::Which;
use account::depot_number::DepotNumber;
use store::window::Window;
use table::slot::Slot;
use table::table::Table;

// The window of depot 3.
const OFFSET: u32 = 0;

const WIDTH: u32 = 50;

impl<'a> Desk<'a> {
    // Three depots, each on memory of its own, which is emptied.
    pub fn start(one: &'a mut [Slot], two: &'a mut [Slot], three: &'a mut [Slot]) -> Desk<'a>
        ensures { desk_view result ≡ start_view one.old two.old three.old }
    {
        let window = Window::over(Table::start(three), OFFSET, WIDTH);
        Desk {
            one: Place::new(DepotNumber::from(Which::One), Table::start(one)),
            two: Place::new(DepotNumber::from(Which::Two), Table::start(two)),
            three: Place::new(DepotNumber::from(Which::Three), window),
        }
    }
}
