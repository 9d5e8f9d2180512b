// Reads lines from standard input and prints an answer to each.
#![tactic(auto)]

use desk::desk::Desk;
use std::io;
use std::io::{Read, Write};
use table::table::{EMPTY, SLOTS};

// How much is read at a time.
const CHUNK: usize = 65_536;

// Reads to the end of the input. Answers are written whenever what was there to read is done.
fn run(rt: &HostRuntime, desk: &mut Desk<'_>) -> io::Result<()> {
    let mut input = rt.stdin();
    let mut output = rt.stdout();
    let mut chunk = vec![in rt.alloc(); 0u8; CHUNK]?;
    let mut begun = Vec::new(rt.alloc());
    let mut out = Vec::new(rt.alloc());
    for _ in 0..u64::MAX {
        let n = input.read(&mut chunk)?;
        if n == 0 {
            break;
        }
        desk.feed(&mut begun, &chunk[..n], &mut out)?;
        output.write_all(&out)?;
        out.clear();
    }
    if !begun.is_empty() {
        desk.feed(&mut begun, b"\n", &mut out)?;
    }
    output.write_all(&out)
}

fn main(rt: HostRuntime) -> io::Result<()> {
    let mut one = [EMPTY; SLOTS];
    let mut two = [EMPTY; SLOTS];
    let mut three = [EMPTY; SLOTS];
    let mut desk = Desk::start(&mut one, &mut two, &mut three);
    run(&rt, &mut desk)
}
