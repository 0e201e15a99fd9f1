//! Makes steps and deliveries of one tile, a case a line, and prints what each sent, the action that it committed, the
//! tile's clock and counts, and how it then holds the line of 0x20000.
//!
//! A line has four parts, with bars between them: a name; the tile, how many tiles there are, and the policy; the words
//! of a program, which lie at 0x10000, with 8192 bytes of data at 0x20000; and events, with semicolons between them. An
//! event is `step`; or `run N`, so many steps, of which each miss is answered with a line of zeros; or a sender and a
//! message with its numbers, as `0 DataS 2048 7 60`, where a line of data has the number in its first 8 bytes. The cache
//! has one line, a quantum is 100 cycles, the slack 10 and the interval 50; the costs are the default ones. The stored
//! answers were worked out apart, from the table of a tile.
#![tactic(auto)]

mod cases;
mod events;
mod machines;
mod numbers;
mod programs;
mod texts;

use std::io;
use std::process::ExitCode;

fn main(rt: HostRuntime) -> io::Result<ExitCode> {
    for line in rt.lines(rt.alloc()) {
        let Ok(text) = cases::answer(rt.alloc(), line?.as_str()) else {
            return Ok(ExitCode::FAILURE);
        };
        println!(rt; "{text}")?;
    }
    Ok(ExitCode::SUCCESS)
}
