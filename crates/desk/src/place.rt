// One depot at the desk, with the slip that the program keeps for it.
ghost use Rattle.std.specs.Prelude.{◌≡◌};
ghost use Rattle.depot.specs.Accounts.{named_in};
ghost use Rattle.desk.specs.Deeds.{booking_of, lacking, read_answer, named_told};
ghost use Rattle.desk.specs.Places.{place, fresh_place, deed_answer, Served};

use crate::pocket::{Pocket, booking_of, narrow};
use account::depot_number::DepotNumber;
use account::refusal::Refusal;
use depot::depot::Depot;
use grammar::command::Deed;
use season::play::play;
use store::store::Store;

#[derive(Drop)]
pub struct Place<S: Store> {
    pub(crate) depot: Depot<S>,
    pub(crate) pocket: Pocket,
}

// The number of the depot that advice names, or 0 for none.
fn named(answer: Result<Option<DepotNumber>, Refusal>) -> Result<u64, Refusal>
    ensures { result ≡ named_told (named_in answer) }
{
    answer.map(|depot| depot.map_or(0, |depot| u64::from(depot.number())))
}

// Why a line that lacks its slip is refused. A number out of range comes first.
fn lacking(deed: Deed) -> Refusal
    ensures { result ≡ lacking (booking_of deed) }
{
    match booking_of(deed) {
        Some(booking) if !booking.is_in_range() => Refusal::OutOfRange,
        _ => Refusal::NoDraft,
    }
}

impl<S: Store> Place<S> {
    // A depot over a store, with no slip yet.
    pub(crate) fn new(number: DepotNumber, store: S) -> Place<S>
        ensures { place S.meaning result ≡ fresh_place number.number (S.meaning store) }
    {
        Place {
            depot: Depot::new(number, store),
            pocket: Pocket::empty(),
        }
    }

    // Does what a line asks for at this depot, and answers it.
    pub fn serve(&mut self, deed: Deed) -> Result<u64, Refusal>
        ensures answer { result ≡ deed_answer (place S.meaning self.old) deed }
        ensures after { Served (place S.meaning self.old) deed (place S.meaning self.new) }
    {
        match self.pocket.compose(deed) {
            Some(call) => {
                let reply = play(&mut self.depot, call);
                self.pocket.settle(reply)
            }
            None => self.read(deed),
        }
    }

    // The answer to a line that makes no call.
    fn read(&self, deed: Deed) -> Result<u64, Refusal>
        ensures { result ≡ read_answer (place S.meaning self.now).depot deed }
    {
        match deed {
            Deed::Stock { part } => self.depot.stock(narrow(part)),
            Deed::OwnFree { part } => self.depot.own_free(narrow(part)),
            Deed::Advise { part, amount } => {
                named(self.depot.advise(narrow(part), narrow(amount)))
            }
            Deed::Send { .. } | Deed::Receive { .. } => Err(Refusal::UnknownLine),
            _ => Err(lacking(deed)),
        }
    }
}
