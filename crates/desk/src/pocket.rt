// The slip that is kept between lines.
ghost use Rattle.std.specs.Prelude.{◌≡◌, None};
ghost use Rattle.desk.specs.Deeds.{narrowed, booking_of, book_call, call_of, left_by, over_told, answer_to, back_slip, kept};

use account::booking::Booking;
use account::refusal::Refusal;
use depot::slip::{Declined, Slip};
use grammar::command::Deed;
use season::call::{Call, Reply};

// The till that the program uses.
const TILL: u32 = 1;

// A number of a line as an argument. One past 32 bits is past every range, and so is what stands for it.
pub(crate) fn narrow(n: u64) -> u32
    ensures { result ≡ narrowed n }
{
    u32::try_from(n).unwrap_or(u32::MAX)
}

// The booking that a line asks for.
pub(crate) fn booking_of(deed: Deed) -> Option<Booking>
    ensures { result ≡ booking_of deed }
{
    match deed {
        Deed::TakeIn { amount } => Some(Booking::TakeIn {
            amount: narrow(amount),
        }),
        Deed::Issue { amount } => Some(Booking::Issue {
            amount: narrow(amount),
        }),
        Deed::HandOver { amount, to } => Some(Booking::HandOver {
            amount: narrow(amount),
            to: narrow(to),
        }),
        _ => None,
    }
}

#[derive(Drop)]
pub struct Pocket {
    slip: Option<Slip>,
}

impl Pocket {
    pub fn empty() -> Pocket
        ensures { result.slip ≡ None }
    {
        Pocket { slip: None }
    }

    // The call that a line makes, if it makes one. The slip that it needs leaves the pocket.
    pub fn compose(&mut self, deed: Deed) -> Option<Call>
        ensures answer { result ≡ call_of self.old.slip deed }
        ensures after { self.new.slip ≡ left_by self.old.slip deed }
    {
        match deed {
            Deed::Create { part, reserve } => Some(Call::Create {
                part: narrow(part),
                reserve: narrow(reserve),
            }),
            Deed::Open { part } => Some(Call::Open {
                till: TILL,
                part: narrow(part),
            }),
            Deed::TakeIn { .. } | Deed::Issue { .. } | Deed::HandOver { .. } => self.book(deed),
            Deed::File => self.slip.take().map(|slip| Call::File { slip }),
            Deed::DropDraft => self.slip.take().map(|slip| Call::DropDraft { slip }),
            Deed::Restart => {
                self.slip = None;
                Some(Call::Restart)
            }
            _ => None,
        }
    }

    // A booking with the slip.
    fn book(&mut self, deed: Deed) -> Option<Call>
        ensures answer { result ≡ book_call self.old.slip (booking_of deed) }
        ensures after { self.new.slip ≡ None }
    {
        let slip = self.slip.take()?;
        let booking = booking_of(deed)?;
        Some(Call::Book { slip, booking })
    }

    // The answer to a reply. A slip that comes with it goes into the pocket.
    pub fn settle(&mut self, reply: Reply) -> Result<u64, Refusal>
        ensures answer { result ≡ answer_to reply }
        ensures after { self.new.slip ≡ kept self.old.slip reply }
    {
        match reply {
            Reply::Created(answer) => answer.map(u64::from),
            Reply::Opened(answer) => {
                let slip = answer?;
                let version = slip.version();
                self.slip = Some(slip);
                Ok(u64::from(version))
            }
            Reply::Booked { slip, answer } => {
                self.slip = Some(slip);
                answer
            }
            Reply::Filed(answer) | Reply::Dropped(answer) => self.give_up(answer),
            Reply::Restarted(lost) => {
                self.slip = None;
                Ok(u64::from(lost))
            }
        }
    }

    // A slip that was given up comes back only if it names no draft.
    fn give_up(&mut self, answer: Result<u32, Declined>) -> Result<u64, Refusal>
        ensures answer { result ≡ over_told answer }
        ensures after { self.new.slip ≡ back_slip answer }
    {
        match answer {
            Ok(n) => {
                self.slip = None;
                Ok(u64::from(n))
            }
            Err(Declined { refusal, slip }) => {
                self.slip = slip;
                Err(refusal)
            }
        }
    }
}
