// A line in words.
use crate::figures::Figures;
use crate::line::{Line, Told};
use account::depot_number::DepotNumber;
use std::fmt;

// An account's figures, and the free stock of each depot that has any.
impl fmt::Display for Figures {
    fn fmt<W: fmt::Write>(&self, f: &mut fmt::Formatter<W>) -> fmt::Result {
        let part = self.part;
        let reserve = self.reserve;
        let stock = self.stock;
        write!(f, "account, part {part}, reserve {reserve}, stock {stock}")?;
        for (depot, free) in DepotNumber::all().iter().zip(&self.free) {
            if *free > 0 {
                write!(f, ", depot {} free {free}", depot.number())?;
            }
        }
        Ok(())
    }
}

// A text in quotes. Bytes that are no plain text are shown by their numbers.
#[derive(Clone, Copy)]
struct Quoted<'a>(&'a [u8]);

impl fmt::Display for Quoted<'_> {
    fn fmt<W: fmt::Write>(&self, f: &mut fmt::Formatter<W>) -> fmt::Result {
        f.write_str("\"")?;
        for byte in self.0 {
            let c = char::from(*byte);
            match *byte {
                b'"' | b'\\' => write!(f, "\\{c}")?,
                b' '..=b'~' => write!(f, "{c}")?,
                _ => write!(f, "\\x{byte:02x}")?,
            }
        }
        f.write_str("\"")
    }
}

impl fmt::Display for Told<'_> {
    fn fmt<W: fmt::Write>(&self, f: &mut fmt::Formatter<W>) -> fmt::Result {
        match *self {
            Told::Account(figures) => write!(f, "{figures}"),
            Told::Contradiction { part, reserve } => {
                write!(
                    f,
                    "account, part {part}, reserve {reserve}, no 12: its counts contradict each other"
                )
            }
            Told::Unread(refusal) => {
                let number = refusal.number();
                write!(f, "not read, no {number}: {refusal}")
            }
            Told::Remark(text) => {
                let quoted = Quoted(text);
                write!(f, "remark {quoted}")
            }
        }
    }
}

impl fmt::Display for Line<'_> {
    fn fmt<W: fmt::Write>(&self, f: &mut fmt::Formatter<W>) -> fmt::Result {
        write!(f, "place {}: {}", self.place, self.told)
    }
}
