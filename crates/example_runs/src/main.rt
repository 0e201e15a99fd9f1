//! Runs each image that it is given, one after the other, as `tilesim run` does. Its stored run has the compiled
//! programs of the folder `examples`. The exit status is the greatest of theirs.
#![tactic(auto)]

use sim_base::{NoMemory, Text};
use sim_outside::{OsFiles, OsSink};
use sim_top::execute_alone;
use std::alloc::Global;
use std::process::ExitCode;
use std::{env, io};

fn main(rt: HostRuntime) -> io::Result<ExitCode> {
    let alloc = rt.alloc();
    let mut files = OsFiles::new(&rt);
    let mut out = OsSink::new(&rt);
    let mut status = 0;
    for name in env::args(&rt)?.skip(1) {
        let Ok(words) = words_of(alloc, name.as_str()) else {
            return Ok(ExitCode::FAILURE);
        };
        let finish = execute_alone(alloc, words.as_slice(), &mut files, &mut out);
        status = finish.status.max(status);
    }
    Ok(ExitCode::from(status))
}

/// The words that run an image.
fn words_of(alloc: Global, image: &str) -> Result<Vec<Text>, NoMemory> {
    let mut words = Vec::new(alloc);
    words.push(Text::new(alloc, "run")?)?;
    words.push(Text::new(alloc, image)?)?;
    Ok(words)
}
