// What a line asks of a depot.
#[derive(Clone, Copy)]
pub struct Command {
    pub depot: u64,
    pub deed: Deed,
}

#[derive(Clone, Copy)]
pub enum Deed {
    Create { part: u64, reserve: u64 },
    Open { part: u64 },
    TakeIn { amount: u64 },
    Issue { amount: u64 },
    HandOver { amount: u64, to: u64 },
    File,
    DropDraft,
    Restart,
    Send { part: u64 },
    Receive { item: u64 },
    Stock { part: u64 },
    OwnFree { part: u64 },
    Advise { part: u64, amount: u64 },
}
