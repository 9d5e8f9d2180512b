// A line at the desk.
ghost use Rattle.std.specs.Prelude.{◌≡◌};
ghost use Rattle.desk.specs.Desks.{desk_view, at_place, is_line, Only, command_answer, Commanded, line_answer, Lined};
ghost use Rattle.desk.specs.Places.{deed_answer};

use super::Desk;
use crate::which::Which;
use account::refusal::Refusal;
use grammar::command::{Command, Deed};

// Sending and receiving are no lines of the program yet.
fn is_line(deed: Deed) -> bool
    ensures { result ≡ is_line deed }
{
    !matches!(deed, Deed::Send { .. } | Deed::Receive { .. })
}

impl Desk<'_> {
    // Does what a line asks for, and answers it. Any bytes are a line.
    pub fn line(&mut self, line: &[u8]) -> Result<u64, Refusal>
        ensures answer { result ≡ line_answer (desk_view self.old) line.now }
        ensures after { Lined (desk_view self.old) line.now (desk_view self.new) }
    {
        let command = Command::read(line).ok_or(Refusal::UnknownLine)?;
        self.command(command)
    }

    // Does what a command asks for at the depot that it names.
    fn command(&mut self, command: Command) -> Result<u64, Refusal>
        ensures answer { result ≡ command_answer (desk_view self.old) command }
        ensures after { Commanded (desk_view self.old) command (desk_view self.new) }
    {
        if !is_line(command.deed) {
            return Err(Refusal::UnknownLine);
        }
        let depot = Which::try_from(command.depot)?;
        self.serve(depot, command.deed)
    }

    // Does a deed at one depot.
    fn serve(&mut self, depot: Which, deed: Deed) -> Result<u64, Refusal>
        ensures answer { result ≡ deed_answer (at_place (desk_view self.old) depot) deed }
        ensures after { Only (desk_view self.old) depot deed (desk_view self.new) }
    {
        match depot {
            Which::One => self.one.serve(deed),
            Which::Two => self.two.serve(deed),
            Which::Three => self.three.serve(deed),
        }
    }
}
