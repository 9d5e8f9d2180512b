// How an answer is printed.
ghost use Rattle.std.specs.Prelude.{◌≡◌, ◌++◌, Some, OnOk, OnErr};
ghost use Rattle.std.specs.Fmt.{decimal};
ghost use Rattle.grammar.specs.Answers.{answer_text, answer_bytes};

use account::refusal::Refusal;
use itoa::Buffer;
use std::alloc::AllocError;
use std::fmt;

// What a line is answered, in its printed form.
#[derive(Clone, Copy)]
pub struct Answer(pub Result<u64, Refusal>);

impl Answer {
    // The word and the space behind it, and the number.
    #[inline]
    fn parts(self) -> (&'static str, u64)
        ensures { result.0.now ++ decimal result.1 ≡ answer_text self.0 }
    {
        match self.0 {
            Ok(number) => ("ok ", number),
            Err(refusal) => ("no ", u64::from(refusal.number())),
        }
    }

    // Appends the answer and a line feed. Where memory runs out, nothing is appended.
    pub fn print(self, out: &mut Vec<u8>) -> Result<(), AllocError>
        ensures ok { OnOk result (out.new.items ≡ out.old.items ++ answer_bytes self.0) }
        ensures err { OnErr result (out.new.items ≡ out.old.items) }
    {
        let (word, number) = self.parts();
        let mut buffer = Buffer::new();
        let digits = buffer.format(number);
        // With this room nothing below fails.
        out.reserve(word.len() + digits.len() + 1)?;
        out.extend_from_slice(word.as_bytes())?;
        out.extend_from_slice(digits.as_bytes())?;
        out.push(b'\n')?;
        Ok(())
    }
}

impl fmt::Display for Answer {
    ghost output = { λ a. Some (answer_text a.0) };

    fn fmt<W: fmt::Write>(&self, f: &mut fmt::Formatter<W>) -> fmt::Result {
        let (word, number) = self.parts();
        write!(f, "{word}{number}")
    }
}
