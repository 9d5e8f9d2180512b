// The depots of a desk by name.
ghost use Rattle.std.specs.Prelude.{◌≡◌};
ghost use Rattle.desk.specs.Numbers.{number_at, which};

use account::depot_number::DepotNumber;
use account::refusal::Refusal;

#[derive(Clone, Copy)]
pub enum Which {
    One,
    Two,
    Three,
}

// The depot of the desk that a number names, or refusal 1.
impl TryFrom<u64> for Which {
    type Error = Refusal;

    ghost try_from_gives = { λ n r. r ≡ which n };

    fn try_from(number: u64) -> Result<Which, Refusal> {
        match number {
            1 => Ok(Which::One),
            2 => Ok(Which::Two),
            3 => Ok(Which::Three),
            _ => Err(Refusal::OutOfRange),
        }
    }
}

impl From<Which> for DepotNumber {
    ghost from_gives = { λ w d. d.number ≡ number_at w };

    fn from(which: Which) -> DepotNumber {
        let number = match which {
            Which::One => 1,
            Which::Two => 2,
            Which::Three => 3,
        };
        DepotNumber::try_from(number).unwrap()
    }
}
