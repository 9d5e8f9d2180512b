// Parts are known by their numbers, from 1 on.
ghost use Rattle.std.specs.Prelude.{◌≡◌};
ghost use Rattle.account.specs.Parts.{part_ok};

// The greatest part.
pub const LAST_PART: u32 = 100_000;

// Whether a part has this number.
pub fn is_part(number: u32) -> bool
    ensures { result ≡ part_ok number }
{
    (1..=LAST_PART).contains(&number)
}
