// Any call at a depot on any store.
ghost use Rattle.std.specs.Prelude.{◌≡◌};
ghost use Rattle.depot.specs.Views.{view};
ghost use Rattle.season.specs.Calls.{reply_to, Does};

use crate::call::{Call, Reply};
use depot::depot::Depot;
use store::store::Store;

// Makes the call, and hands on what the depot answers.
pub fn play<S: Store>(depot: &mut Depot<S>, call: Call) -> Reply
    ensures answer { result ≡ reply_to (view S.meaning depot.old) call }
    ensures after { Does (view S.meaning depot.old) call (view S.meaning depot.new) }
{
    match call {
        Call::Create { part, reserve } => Reply::Created(depot.create(part, reserve)),
        Call::Open { till, part } => Reply::Opened(depot.open(till, part)),
        Call::Book { slip, booking } => {
            let answer = depot.book(&slip, booking);
            Reply::Booked { slip, answer }
        }
        Call::File { slip } => Reply::Filed(depot.file(slip)),
        Call::DropDraft { slip } => Reply::Dropped(depot.drop_draft(slip)),
        Call::Restart => Reply::Restarted(depot.restart()),
    }
}
