// Reads a parcel from standard input and prints what is in it.
#![tactic(auto)]

mod figures;
mod line;
mod show;

use crate::line::line_of;
use items::parcel::Reader;
use std::io;
use std::io::Read;

// One line for each item, and where reading ends and why.
fn list(rt: &HostRuntime, parcel: &[u8]) -> io::Result<()> {
    let mut reader = Reader::new(parcel);
    loop {
        match reader.next_item() {
            Ok(Some(handed)) => {
                let line = line_of(parcel, handed);
                println!(rt; "{line}")?;
            }
            Ok(None) => {
                let place = reader.place();
                return println!(rt; "place {place}: the parcel ends");
            }
            Err(refusal) => {
                let place = reader.place();
                let number = refusal.number();
                return println!(rt; "place {place}: reading stops, no {number}: {refusal}");
            }
        }
    }
}

fn main(rt: HostRuntime) -> io::Result<()> {
    let mut parcel = Vec::new(rt.alloc());
    let _ = rt.stdin().read_to_end(&mut parcel)?;
    list(&rt, &parcel)
}
