//! The lines that are printed where there was no run.
ghost use Rattle.std.specs.Prelude.{◌≡◌, IfOk, codes, ◌++◌, string_bytes};
ghost use Rattle.stats_report.specs.Text.{line};
ghost use Rattle.sim_top.specs.Text.{fault_text, journal_text};

use crate::outcomes::{JournalFault, Outcome};
use sim_base::NoMemory;
use sim_config::key_of;
use std::alloc::Global;

/// The line that says why there was no run, or none to an end. It is empty where there was one, and where no text is put.
pub fn fault_line(alloc: Global, outcome: &Outcome) -> Result<Vec<u8>, NoMemory>
    ensures { IfOk result (λ text. text.items ≡ fault_text outcome.now) }
{
    let text = match *outcome {
        Outcome::Usage => String::from_str(alloc, "tilesim: usage\n")?,
        Outcome::BadConfig { field } => {
            let key = key_of(field);
            format!(in alloc; "tilesim: bad setting {key}\n")?
        }
        Outcome::BadImage { fault } => { format!(in alloc; "tilesim: bad image {fault}\n")? }
        Outcome::BadJournal { fault } => journal_line(alloc, fault)?,
        Outcome::ReadFault => String::from_str(alloc, "tilesim: read fault\n")?,
        Outcome::Stuck => String::from_str(alloc, "tilesim: stuck\n")?,
        Outcome::Done { .. }
        | Outcome::Written
        | Outcome::Trap { .. }
        | Outcome::Deadlock
        | Outcome::Budget
        | Outcome::WriteFault
        | Outcome::NoMemory => String::new(alloc),
    };
    Ok(text.into_bytes())
}

/// Why a journal is refused, as a line.
fn journal_line(alloc: Global, fault: JournalFault) -> Result<String, NoMemory>
    ensures { IfOk result (λ text. string_bytes text ≡ line (codes "tilesim: " ++ journal_text fault)) }
{
    match fault {
        JournalFault::TooLong => Ok(String::from_str(alloc, "tilesim: journal too long\n")?),
        JournalFault::Byte { at } => Ok(format!(in alloc; "tilesim: bad journal byte {at}\n")?),
        JournalFault::Event { index } => Ok(format!(in alloc;
            "tilesim: bad journal event {index}\n"
        )?),
        JournalFault::Unfinished { count } => Ok(format!(in alloc;
            "tilesim: journal ends at event {count}\n"
        )?),
    }
}
