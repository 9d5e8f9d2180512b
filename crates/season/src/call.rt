// A call of a depot, and what it replies.
use account::booking::Booking;
use account::refusal::Refusal;
use depot::slip::{Declined, Slip};

// A call owns the slip that it is made with.
#[derive(Drop)]
pub enum Call {
    Create { part: u32, reserve: u32 },
    Open { till: u32, part: u32 },
    Book { slip: Slip, booking: Booking },
    File { slip: Slip },
    DropDraft { slip: Slip },
    Restart,
}

// A slip that was only shown comes back.
#[derive(Drop)]
pub enum Reply {
    Created(Result<u32, Refusal>),
    Opened(Result<Slip, Refusal>),
    Booked {
        slip: Slip,
        answer: Result<u64, Refusal>,
    },
    Filed(Result<u32, Declined>),
    Dropped(Result<u32, Declined>),
    Restarted(u32),
}
