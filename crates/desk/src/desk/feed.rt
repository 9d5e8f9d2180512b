// Input that comes in pieces.
ghost use Rattle.std.specs.Prelude.{OnOk};
ghost use Rattle.desk.specs.Desks.{desk_view};
ghost use Rattle.desk.specs.Feeds.{Fed, Taken};

use super::Desk;
use grammar::answer::Answer;
use std::alloc::AllocError;

impl Desk<'_> {
    // Answers every line that ends in the bytes. What stands behind the last line feed stays in `begun`.
    pub fn feed(
        &mut self,
        begun: &mut Vec<u8>,
        bytes: &[u8],
        out: &mut Vec<u8>,
    ) -> Result<(), AllocError>
        ensures { OnOk result (Fed (desk_view self.old) begun.old.items bytes.now out.old.items (desk_view self.new) begun.new.items out.new.items) }
    {
        for b in bytes {
            self.take(begun, *b, out)?;
        }
        Ok(())
    }

    // Takes one byte: a line feed ends the line that was begun, any other byte belongs to it.
    fn take(&mut self, begun: &mut Vec<u8>, b: u8, out: &mut Vec<u8>) -> Result<(), AllocError>
        ensures { OnOk result (Taken (desk_view self.old) begun.old.items b out.old.items (desk_view self.new) begun.new.items out.new.items) }
    {
        if b == b'\n' {
            Answer(self.line(begun)).print(out)?;
            begun.clear();
        } else {
            begun.push(b)?;
        }
        Ok(())
    }
}
