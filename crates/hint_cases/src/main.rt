//! Prints what a person is told in a case a line: an outcome in a few words, a colon, and the words of the command line.
//! An outcome is `usage`, `setting KEY`, `image FAULT`, `trap CAUSE`, `journal long`, `journal byte`, `journal ends`,
//! `event NODE` or `event FROM NODE` for a refused step or delivery, `read`, `write`, `put`, `deadlock`, `stuck`, `memory`,
//! `exit`, `written`, or `budget COUNT` for a run in which node 1 made so many events. A `!` before the outcome tells the
//! settings too: 4 tiles on 2 hosts, and the policy `barrier` with a quantum of 20; and where two threads wait.
#![tactic(auto)]

mod outcomes;

use event_journal::{Event, Journal};
use hints::{Known, Place, Waits, hint};
use outcomes::outcome_of;
use sim_base::{Config, NoMemory, Policy, Text};
use std::alloc::{AllocError, Global};
use std::io;

fn main(rt: HostRuntime) -> io::Result<()> {
    let alloc = rt.alloc();
    for line in rt.lines(alloc) {
        let line = line?;
        if let Some((case, words)) = line.as_str().split_once(':') {
            println!(rt; "{case}:{words}")?;
            let text = told(alloc, case, words)?;
            println!(rt; "{text}")?;
        }
    }
    Ok(())
}

/// What a person is told in a case.
fn told(alloc: Global, case: &str, words: &str) -> Result<String, AllocError> {
    let (is_told, case) = match case.strip_prefix("!") {
        Some(case) => (true, case),
        None => (false, case),
    };
    let (first, detail) = case.split_once(' ').unwrap_or((case, ""));
    let Some(outcome) = outcome_of(alloc, first, detail)? else {
        return String::from_str(alloc, "no outcome\n");
    };
    let Ok(journal) = journal(alloc, first, detail) else {
        return String::from_str(alloc, "out of memory\n");
    };
    let mut known = Known::at_first(alloc, first != "put");
    if first == "event" {
        known.refused = event_of(detail);
    }
    if is_told {
        known.settings = Some(settings());
        push_waits(&mut known.waits)?;
    }
    let Ok(words) = list(alloc, words) else {
        return String::from_str(alloc, "out of memory\n");
    };
    match hint(alloc, words.as_slice(), &outcome, &journal, &known) {
        Ok(text) => Ok(text),
        Err(_) => String::from_str(alloc, "out of memory\n"),
    }
}

/// Words as the command line has them. `''` is an empty one.
fn list(alloc: Global, words: &str) -> Result<Vec<Text>, NoMemory> {
    let mut all = Vec::new(alloc);
    for word in words.split_whitespace() {
        let word = if word == "''" { "" } else { word };
        all.push(Text::new(alloc, word)?)?;
    }
    Ok(all)
}

/// The settings that a case may tell.
fn settings() -> Config {
    Config {
        tiles: 4,
        hosts: 2,
        policy: Policy::LaxBarrier,
        quantum: 20,
        ..Config::defaults()
    }
}

/// Appends where two threads wait.
fn push_waits(waits: &mut Vec<Waits>) -> Result<(), AllocError> {
    waits.push(Waits {
        thread: 0,
        tile: Some(0),
        place: Place::Exit { thread: 1 },
    })?;
    waits.push(Waits {
        thread: 1,
        tile: Some(3),
        place: Place::Word { address: 0x12340 },
    })?;
    Ok(())
}

/// The events of a run: of a budget so many steps of node 1.
fn journal(alloc: Global, first: &str, detail: &str) -> Result<Journal, NoMemory> {
    let mut journal = Journal::new(alloc);
    if first == "budget" {
        let count = detail.parse::<u32>().unwrap_or(0);
        journal.push_times(Event::Step { node: 1 }, count)?;
    }
    Ok(journal)
}

/// A step or a delivery.
fn event_of(detail: &str) -> Option<Event> {
    match detail.split_once(' ') {
        Some((from, node)) => Some(Event::Deliver {
            from: from.parse::<u8>().ok()?,
            node: node.parse::<u8>().ok()?,
        }),
        None => Some(Event::Step {
            node: detail.parse::<u8>().ok()?,
        }),
    }
}
