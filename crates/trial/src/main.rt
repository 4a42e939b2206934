// Reads a sheet from standard input and prints its transcript, or the one fault that it has. All the memory that a transcript can
// need is there before the sheet is read.
#![tactic(auto)]

use std::io;
use transcript::{Room, read_input};

fn main(rt: HostRuntime) -> io::Result<()> {
    let heap = rt.alloc();
    let room = Room::new(heap)?;
    let text = read_input(heap, rt.stdin())?;
    let out = room.transcript(text.as_slice());
    print!(rt; "{out}")
}
