// A store in lent bytes, of which the first 65,536 are used.
ghost use Rattle.journal.specs.Journals.{front_of, Ends};

pub mod keep;
pub mod make;

// How many bytes a journal uses.
const USED: usize = 65_536;

// The records are those of the entries in the bytes.
#[derive(Drop)]
pub struct Journal<'a> {
    bytes: &'a mut [u8],
    // where the next entry goes
    end: usize,
    ghost ends: { Ends (front_of bytes.now) end },
}
