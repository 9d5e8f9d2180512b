// Between plain numbers and depots' numbers.
ghost use Rattle.std.specs.Prelude.{◌≡◌, ◌+◌, ◌-◌, ◌<◌};
ghost use Rattle.std.specs.List.{range_with_len};
ghost use Rattle.account.specs.Numbers.{number_answer, number_in, numbers};

use super::DepotNumber;
use crate::refusal::Refusal;

// The depot of this number, or refusal 1.
impl TryFrom<u32> for DepotNumber {
    type Error = Refusal;

    ghost try_from_gives = { λ n r. number_in r ≡ number_answer n };

    fn try_from(number: u32) -> Result<DepotNumber, Refusal> {
        if !(1..=8).contains(&number) {
            return Err(Refusal::OutOfRange);
        }
        Ok(DepotNumber { number })
    }
}

impl DepotNumber {
    // The eight depots, in the order of their numbers.
    pub fn all() -> [DepotNumber; 8]
        ensures { numbers result ≡ range_with_len 1 8 }
    {
        [
            DepotNumber { number: 1 },
            DepotNumber { number: 2 },
            DepotNumber { number: 3 },
            DepotNumber { number: 4 },
            DepotNumber { number: 5 },
            DepotNumber { number: 6 },
            DepotNumber { number: 7 },
            DepotNumber { number: 8 },
        ]
    }

    pub fn number(self) -> u32
        ensures { result ≡ self.number }
    {
        self.number
    }

    // Where the depot's count stands in a row.
    pub(crate) fn index(self) -> usize
        ensures place { result ≡ self.number - 1 }
        ensures within { result < 8 }
    {
        self.number as usize - 1
    }
}
