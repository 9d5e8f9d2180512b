// Reads a line: a command word and its numbers, with a single space before each number.
ghost use Rattle.std.specs.Prelude.{◌≡◌};
ghost use Rattle.grammar.specs.Grammar.{asked, command_of, ReadsBack, ReadsOnly};
ghost use Rattle.grammar.specs.Steps.{left};

use crate::command::{Command, Deed};
use crate::fields::Fields;
use crate::word::Word;

// The command that the word and all fields behind it ask for.
fn asked_by(word: Word, mut fields: Fields<'_>) -> Option<Command>
    ensures { result ≡ asked word (left fields.entry) }
{
    let mut number = || fields.number();
    let depot = number()?;
    let deed = match word {
        Word::Create => {
            let (part, reserve) = (number()?, number()?);
            Deed::Create { part, reserve }
        }
        Word::Open => Deed::Open { part: number()? },
        Word::In => Deed::TakeIn { amount: number()? },
        Word::Out => Deed::Issue { amount: number()? },
        Word::Give => {
            let (amount, to) = (number()?, number()?);
            Deed::HandOver { amount, to }
        }
        Word::File => Deed::File,
        Word::Drop => Deed::DropDraft,
        Word::Restart => Deed::Restart,
        Word::Send => Deed::Send { part: number()? },
        Word::Recv => Deed::Receive { item: number()? },
        Word::Stock => Deed::Stock { part: number()? },
        Word::Own => Deed::OwnFree { part: number()? },
        Word::Ask => {
            let (part, amount) = (number()?, number()?);
            Deed::Advise { part, amount }
        }
    };
    fields.is_empty().then_some(Command { depot, deed })
}

impl Command {
    // The command that the line is, if it is one.
    #[tactic(auto, using(crate::proofs::Backs::reads_back, crate::proofs::Onlys::reads_only), unfolding(crate::specs::Grammar::command_of))]
    pub fn read(line: &[u8]) -> Option<Command>
        ensures value { result ≡ command_of line.now }
        ensures back { ReadsBack }
        ensures only { ReadsOnly }
    {
        let (first, fields) = Fields::of(line);
        asked_by(Word::read(first)?, fields)
    }
}
