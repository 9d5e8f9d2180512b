// The numbers of an account as memory or bytes may hold them, lawful or not.

// The greatest count, amount, reserve, version and layer.
pub const LIMIT: u32 = 1_000_000_000;

// One count for each of the eight depots.
#[derive(Clone, Copy, PartialEq, Eq, Debug)]
pub struct Row {
    pub counts: [u32; 8],
}

pub const NO_COUNTS: Row = Row { counts: [0; 8] };

// A reserve and 72 counts. Row i, column j is what depot i handed over to depot j, and where i is j
// what it took in; `issued` is what each depot issued.
#[derive(Clone, Copy, PartialEq, Eq, Debug)]
pub struct Tally {
    pub reserve: u32,
    pub rows: [Row; 8],
    pub issued: Row,
}
