//! `tilesim`: runs a RISC-V program from an ELF image, prints its output and how it ended.
#![tactic(auto)]

use hints::{Known, are_plain_files, hint, look_again};
use sim_base::{NoMemory, Text};
use sim_outside::{OsFiles, OsSink};
use sim_top::{Finish, execute_alone};
use std::alloc::Global;
use std::io::{ErrorKind, IsTerminal};
use std::process::ExitCode;
use std::rt::Env;
use std::{env, rt};

/// The exit status where no memory is found for the arguments.
const OUT_OF_MEMORY: u8 = 10;

fn main(rt: HostRuntime) -> ExitCode {
    let alloc = rt.alloc();
    match words_of(&rt, alloc) {
        Ok(words) => {
            let mut files = OsFiles::new(&rt);
            let mut out = OsSink::new(&rt);
            let finish = execute_alone(alloc, words.as_slice(), &mut files, &mut out);
            if rt.stderr().is_terminal() {
                advise(&rt, alloc, words.as_slice(), &finish, out.faults == 0);
            }
            ExitCode::from(finish.status)
        }
        Err(NoMemory) => ExitCode::from(OUT_OF_MEMORY),
    }
}

/// Writes on standard error what a person needs who is told of an outcome, if memory is there for it. Nothing depends on
/// whether it could be written.
fn advise<R: rt::Files + Eprint>(
    rt: &R,
    alloc: Global,
    words: &[Text],
    finish: &Finish,
    is_text_put: bool,
) {
    if let Ok(text) = advice(rt, alloc, words, finish, is_text_put) {
        let _ = rt.eprint(text.as_str());
    }
}

/// What a person needs who is told of an outcome.
fn advice<R: rt::Files>(
    rt: &R,
    alloc: Global,
    words: &[Text],
    finish: &Finish,
    is_text_put: bool,
) -> Result<String, NoMemory> {
    let Finish {
        outcome,
        journal,
        ..
    } = finish;
    let mut known = Known::at_first(alloc, is_text_put);
    if are_plain_files(rt, alloc, words)? {
        let mut files = OsFiles::new(rt);
        look_again(alloc, words, outcome, journal, &mut known, &mut files)?;
    }
    hint(alloc, words, outcome, journal, &known)
}

/// The words after the program's name. Where the system doesn't give them as text, they are one empty
/// word, which means nothing.
fn words_of(rt: &(impl Env + AllocGlobal), alloc: Global) -> Result<Vec<Text>, NoMemory> {
    let mut words = Vec::new(alloc);
    match env::args(rt) {
        Ok(arguments) => {
            for argument in arguments.skip(1) {
                words.push(Text::new(alloc, argument.as_str())?)?;
            }
        }
        Err(error) if error.kind() == ErrorKind::OutOfMemory => return Err(NoMemory),
        Err(_) => words.push(Text::new(alloc, "")?)?,
    }
    Ok(words)
}
