//! Outcomes by their names.

use elf_image::ImageFault;
use sim_base::{Cause, Field};
use sim_config::key_of;
use sim_top::{JournalFault, Outcome};
use std::alloc::{AllocError, Global};

static FIELDS: [Field; 25] = [
    Field::Length,
    Field::Text,
    Field::Unknown,
    Field::Tiles,
    Field::Hosts,
    Field::Sets,
    Field::Ways,
    Field::StackBytes,
    Field::HeapBytes,
    Field::AluCost,
    Field::MulCost,
    Field::DivCost,
    Field::MemCost,
    Field::AmoCost,
    Field::CallCost,
    Field::SpawnCost,
    Field::HopCost,
    Field::DirectoryCost,
    Field::MemoryCost,
    Field::Policy,
    Field::Quantum,
    Field::Slack,
    Field::Interval,
    Field::Events,
    Field::Seed,
];

static FAULTS: [ImageFault; 14] = [
    ImageFault::TooLong,
    ImageFault::Short,
    ImageFault::Magic,
    ImageFault::Class,
    ImageFault::Kind,
    ImageFault::Machine,
    ImageFault::Headers,
    ImageFault::Dynamic,
    ImageFault::Interp,
    ImageFault::Tls,
    ImageFault::Reach,
    ImageFault::Overlap,
    ImageFault::WriteExec,
    ImageFault::Entry,
];

static CAUSES: [Cause; 8] = [
    Cause::InstrMisaligned,
    Cause::InstrAccess,
    Cause::Illegal,
    Cause::Breakpoint,
    Cause::LoadMisaligned,
    Cause::LoadAccess,
    Cause::StoreMisaligned,
    Cause::StoreAccess,
];

/// The outcome of a name and what follows it.
pub fn outcome_of(alloc: Global, first: &str, detail: &str) -> Result<Option<Outcome>, AllocError> {
    if first == "setting" {
        return Ok(setting_of(detail));
    }
    if first == "image" {
        return fault_of(alloc, detail);
    }
    if first == "trap" {
        return cause_of(alloc, detail);
    }
    if first == "journal" {
        return Ok(journal_of(detail));
    }
    Ok(plain_of(first))
}

/// The outcome of a name by itself.
fn plain_of(first: &str) -> Option<Outcome> {
    match first {
        "usage" => Some(Outcome::Usage),
        "event" => Some(Outcome::BadJournal {
            fault: JournalFault::Event { index: 5 },
        }),
        "read" => Some(Outcome::ReadFault),
        "write" | "put" => Some(Outcome::WriteFault),
        "deadlock" => Some(Outcome::Deadlock),
        "budget" => Some(Outcome::Budget),
        "stuck" => Some(Outcome::Stuck),
        "memory" => Some(Outcome::NoMemory),
        "exit" => Some(Outcome::Done { code: 3 }),
        "written" => Some(Outcome::Written),
        _ => None,
    }
}

/// The refusal of a setting.
fn setting_of(key: &str) -> Option<Outcome> {
    let field = *FIELDS.iter().find(|field| key_of(**field) == key)?;
    Some(Outcome::BadConfig { field })
}

/// The refusal of a journal.
fn journal_of(detail: &str) -> Option<Outcome> {
    let fault = match detail {
        "long" => JournalFault::TooLong,
        "byte" => JournalFault::Byte { at: 3 },
        "ends" => JournalFault::Unfinished { count: 5 },
        _ => return None,
    };
    Some(Outcome::BadJournal { fault })
}

/// The refusal of an image.
fn fault_of(alloc: Global, name: &str) -> Result<Option<Outcome>, AllocError> {
    for fault in FAULTS.iter() {
        let fault = *fault;
        if format!(in alloc; "{fault}")?.as_str() == name {
            return Ok(Some(Outcome::BadImage { fault }));
        }
    }
    Ok(None)
}

/// A trap of thread 2 at 0x10124.
fn cause_of(alloc: Global, name: &str) -> Result<Option<Outcome>, AllocError> {
    for cause in CAUSES.iter() {
        let cause = *cause;
        if format!(in alloc; "{cause}")?.as_str() == name {
            return Ok(Some(Outcome::Trap {
                thread: 2,
                cause,
                pc: 0x10124,
            }));
        }
    }
    Ok(None)
}
