// A depot's number, checked once.
ghost use Rattle.std.specs.Prelude.{◌≤◌};

pub mod checks;

// One of the depots 1 to 8.
#[derive(Clone, Copy, PartialEq, Eq, Debug)]
pub struct DepotNumber {
    number: u32,
    ghost least: { 1 ≤ number },
    ghost most: { number ≤ 8 },
}
