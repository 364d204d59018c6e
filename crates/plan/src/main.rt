#![tactic(auto)]

// Reads the line of a job from standard input and prints its plan.
use std::io::{self, BufRead, BufReader};
use texts::page::answer;

fn main(rt: HostRuntime) -> io::Result<()> {
    let heap = rt.alloc();
    let mut line = Vec::new(heap);
    // The buffer: without it a line from a pipe is read by one call of the system for each byte.
    BufReader::new(heap, rt.reader())?.read_until(b'\n', &mut line)?;
    rt.print(answer(heap, &line)?)
}
