// What the stores at the bottom have in common: their ranges, and a memory of which they use the front.
ghost use Rattle.std.specs.Prelude.{◌≡◌, take};
ghost use Rattle.store.specs.Bottoms.{in_range};
ghost use Rattle.store.specs.Meaning.{version_ok};

use account::part::is_part;
use account::tally::LIMIT;

// May a record have this version?
pub fn version_ok(version: u32) -> bool
    ensures { result ≡ version_ok version }
{
    (1..=LIMIT).contains(&version)
}

// May a record have these numbers?
pub fn in_range(part: u32, version: u32) -> bool
    ensures { result ≡ in_range part version }
{
    is_part(part) && version_ok(version)
}

// The first places of a memory, at most so many.
pub fn front<T>(memory: &[T], most: usize) -> &[T]
    ensures { result.now ≡ take most memory.now }
{
    &memory[..memory.len().min(most)]
}
