//! The lines of each outcome. They are this simulator's own, and no contract speaks of them.

use crate::again::Known;
use crate::commands::push_table;
use crate::events::{push_budget, push_refused};
use crate::names::{image_of, push_read, push_written};
use crate::rules::{broken_rule, push_rule};
use crate::settings::rule_of;
use crate::waits::push_waits;
use crate::{images, traps};
use event_journal::Journal;
use sim_base::{Cause, NoMemory, Text};
use sim_config::{Request, RequestFault, request_of};
use sim_top::{JournalFault, Outcome};
use std::alloc::Global;

/// What a person needs who is told of this outcome: nothing where a run ended by an exit or a workload was written, and else
/// some lines. `words` are those of the command line, `journal` has the run's events.
pub fn hint(
    alloc: Global,
    words: &[Text],
    outcome: &Outcome,
    journal: &Journal,
    known: &Known,
) -> Result<String, NoMemory> {
    let mut text = String::new(alloc);
    match request_of(alloc, words) {
        Ok(request) => push_outcome(alloc, &mut text, &request, outcome, journal, known)?,
        Err(RequestFault::Usage) => push_usage(alloc, &mut text, words)?,
        Err(RequestFault::NoMemory) => return Err(NoMemory),
    }
    Ok(text)
}

/// Appends which rule the words break, and the table of commands.
fn push_usage(alloc: Global, text: &mut String, words: &[Text]) -> Result<(), NoMemory> {
    push_rule(alloc, text, broken_rule(words))?;
    push_table(alloc, text)?;
    text.push_str("docs/WORDS.md has the rules, the order of the tests, and every exit status.\n")?;
    Ok(())
}

/// Appends the lines of an outcome of a request.
fn push_outcome(
    alloc: Global,
    text: &mut String,
    request: &Request,
    outcome: &Outcome,
    journal: &Journal,
    known: &Known,
) -> Result<(), NoMemory> {
    match *outcome {
        Outcome::Done { .. } | Outcome::Written | Outcome::Usage => {}
        Outcome::Trap { thread, cause, pc } => {
            push_trap(alloc, text, request, thread, cause, pc)?;
        }
        Outcome::Deadlock => {
            push_line(
                text,
                "Every live thread is parked: at a futex word, or joining another thread.",
            )?;
            push_waits(alloc, text, known.waits.as_slice())?;
            push_lines(text, &DEADLOCK)?;
        }
        Outcome::Budget => push_budget(alloc, text, journal, known.settings.as_ref())?,
        Outcome::Stuck => push_lines(text, &STUCK)?,
        Outcome::BadConfig { field } => {
            push_line(text, rule_of(field))?;
            push_line(text, "docs/SETTINGS.md has all settings.")?;
        }
        Outcome::BadImage { fault } => {
            push_line(text, images::meaning_of(fault))?;
            push_line(text, images::remedy_of(fault))?;
            push_line(
                text,
                "docs/IMAGES.md has all faults, and how an image is built.",
            )?;
        }
        Outcome::BadJournal { fault } => push_journal(alloc, text, fault, known)?,
        Outcome::ReadFault => {
            push_line(
                text,
                "One of these files couldn't be read, which is tried in this order:",
            )?;
            push_read(alloc, text, request)?;
        }
        Outcome::WriteFault => push_write_fault(alloc, text, request, known.is_text_put)?,
        Outcome::NoMemory => push_lines(text, &NO_MEMORY)?,
    }
    Ok(())
}

static DEADLOCK: [&str; 3] = [
    "Look for a lock that isn't given back, for a wake before its wait, where the word wasn't changed first,",
    "and for threads that join one another.",
    "docs/CALLS.md says when a thread is parked, and what lets it go on.",
];

static STUCK: [&str; 2] = [
    "Nothing can happen any more, and the run has no end. No image is known that does so.",
    "Please keep the image, the settings and the seed, and report it.",
];

static NO_MEMORY: [&str; 2] = [
    "Memory ran out. What takes most is the heap window, the stacks, and the run's events.",
    "Smaller settings heap_bytes, stack_bytes, tiles and events take less.",
];

static OTHER_RUN: [&str; 2] = [
    "A journal is of one run: the image, the settings and, under the policy p2p, the seed have to be the same.",
    "docs/JOURNAL.md says what a journal is.",
];

/// Appends why a thread trapped, and how its place in the source is found.
fn push_trap(
    alloc: Global,
    text: &mut String,
    request: &Request,
    thread: u32,
    cause: Cause,
    pc: u64,
) -> Result<(), NoMemory> {
    text.push_str(format!(in alloc;
        "The instruction of thread {thread} at 0x{pc:x} trapped.\n"
    )?.as_str())?;
    push_line(text, traps::meaning_of(cause))?;
    push_line(text, traps::reason_of(cause))?;
    if let Some(image) = image_of(request) {
        push_line(
            text,
            "Its place in the source, where the image was built with -g and without -s:",
        )?;
        text.push_str(format!(in alloc;
            "  riscv64-unknown-elf-addr2line -e {image} 0x{pc:x}\n"
        )?.as_str())?;
    }
    Ok(())
}

/// Appends why a journal is refused.
fn push_journal(
    alloc: Global,
    text: &mut String,
    fault: JournalFault,
    known: &Known,
) -> Result<(), NoMemory> {
    match fault {
        JournalFault::TooLong => {
            push_line(text, "The journal's file has more than 300,000,000 bytes.")?;
        }
        JournalFault::Byte { .. } => {
            push_line(text, "The file is no journal, or was cut off or added to.")?;
            push_line(
                text,
                "docs/JOURNAL.md has its bytes; run .. --journal FILE writes one.",
            )?;
        }
        JournalFault::Event { .. } => {
            if let Some(event) = known.refused {
                push_refused(alloc, text, event, known.settings.as_ref())?;
            }
            push_line(text, "It can't happen after the events before it.")?;
            push_lines(text, &OTHER_RUN)?;
        }
        JournalFault::Unfinished { .. } => {
            push_line(
                text,
                "All its events can happen, and then the run goes on: the journal lacks its end.",
            )?;
            push_lines(text, &OTHER_RUN)?;
        }
    }
    Ok(())
}

/// Appends what couldn't be put or written.
fn push_write_fault(
    alloc: Global,
    text: &mut String,
    request: &Request,
    is_text_put: bool,
) -> Result<(), NoMemory> {
    if !is_text_put {
        return push_line(
            text,
            "Standard output didn't take the whole text, and so no file was written.",
        );
    }
    push_line(
        text,
        "What was to be printed was put. This file couldn't be written, and holds unknown bytes now, or isn't there:",
    )?;
    push_written(alloc, text, request)
}

/// Appends lines.
fn push_lines(text: &mut String, lines: &[&str]) -> Result<(), NoMemory> {
    for line in lines.iter() {
        push_line(text, line)?;
    }
    Ok(())
}

/// Appends a line.
fn push_line(text: &mut String, line: &str) -> Result<(), NoMemory> {
    text.push_str(line)?;
    text.push_str("\n")?;
    Ok(())
}
