//! A second look at the files of a call, for what its answer doesn't tell: the settings, the event that a replay refused,
//! and where the threads of a deadlock wait.

use crate::waits::{Waits, waits_of};
use elf_image::{FILE_LIMIT, World, read_image};
use event_journal::{Event, Journal};
use journal_file::{MOST_BYTES as MOST_JOURNAL, read_journal};
use sim_base::{Config, NoMemory, Text};
use sim_config::{MOST_BYTES as MOST_SETTINGS, Request, config_of, request_of};
use sim_outside::{FileAnswer, Files};
use sim_top::{JournalFault, Outcome};
use std::alloc::Global;
use std::{fs, rt};

/// What is known of a call beside its words, its outcome and its journal.
#[derive(Drop)]
pub struct Known {
    /// Whether the stream took the whole text.
    pub is_text_put: bool,
    /// The settings, where they could be read again.
    pub settings: Option<Config>,
    /// The event that a replay refused, where it could be read again.
    pub refused: Option<Event>,
    /// Where the threads of a deadlock wait.
    pub waits: Vec<Waits>,
}

impl Known {
    /// What is known without a look at the files.
    pub fn at_first(alloc: Global, is_text_put: bool) -> Known {
        Known {
            is_text_put,
            settings: None,
            refused: None,
            waits: Vec::new(alloc),
        }
    }
}

/// Whether the words name plain files alone, which can be read twice. A pipe can't.
pub fn are_plain_files<R: rt::Files>(
    system: &R,
    alloc: Global,
    words: &[Text],
) -> Result<bool, NoMemory> {
    let Ok(request) = request_of(alloc, words) else {
        return Ok(false);
    };
    let (image, config, journal) = match &request {
        Request::Run { image, config, .. } => (image, config.as_ref(), None),
        Request::Replay {
            image,
            journal,
            config,
            ..
        } => (image, config.as_ref(), Some(journal)),
        Request::Gen { .. } | Request::Bench { .. } => return Ok(false),
    };
    Ok(is_plain(system, image) && are_plain(system, config) && are_plain(system, journal))
}

/// Whether a name is a plain file's, where there is one.
fn are_plain<R: rt::Files>(system: &R, name: Option<&Text>) -> bool {
    match name {
        Some(name) => is_plain(system, name),
        None => true,
    }
}

/// Whether a name is a plain file's.
fn is_plain<R: rt::Files>(system: &R, name: &Text) -> bool {
    match fs::metadata(system, name.as_str()) {
        Ok(metadata) => metadata.is_file(),
        Err(_) => false,
    }
}

/// Looks at the files of a call again, where its outcome asks for it, and notes what is known then.
pub fn look_again<F: Files>(
    alloc: Global,
    words: &[Text],
    outcome: &Outcome,
    journal: &Journal,
    known: &mut Known,
    files: &mut F,
) -> Result<(), NoMemory> {
    let Ok(request) = request_of(alloc, words) else {
        return Ok(());
    };
    match *outcome {
        Outcome::Budget => known.settings = settings_again(alloc, &request, files)?,
        Outcome::BadJournal {
            fault: JournalFault::Event { index },
        } => {
            known.settings = settings_again(alloc, &request, files)?;
            known.refused = event_again(alloc, &request, index, files)?;
        }
        Outcome::Deadlock => {
            if let Some(world) = world_again(alloc, &request, files)? {
                known.waits = waits_of(alloc, &world, journal)?;
            }
        }
        _ => {}
    }
    Ok(())
}

/// The settings of a request's machine, where they can be had.
fn settings_again<F: Files>(
    alloc: Global,
    request: &Request,
    files: &mut F,
) -> Result<Option<Config>, NoMemory> {
    let name = match request {
        Request::Run { config, .. } | Request::Replay { config, .. } => config,
        Request::Gen { .. } | Request::Bench { .. } => return Ok(None),
    };
    let Some(name) = name else {
        return Ok(Some(Config::defaults()));
    };
    let Some(bytes) = bytes_again(alloc, name, MOST_SETTINGS, files)? else {
        return Ok(None);
    };
    Ok(config_of(alloc, bytes.as_slice()).ok())
}

/// The world of a request, where it can be had. Its seed is that of the settings: no event's effect depends on it, but for
/// whom a tile asks.
fn world_again<F: Files>(
    alloc: Global,
    request: &Request,
    files: &mut F,
) -> Result<Option<World>, NoMemory> {
    let (name, seed) = match request {
        Request::Run { image, seed, .. } | Request::Replay { image, seed, .. } => (image, *seed),
        Request::Gen { .. } | Request::Bench { .. } => return Ok(None),
    };
    let Some(mut config) = settings_again(alloc, request, files)? else {
        return Ok(None);
    };
    if let Some(seed) = seed {
        config.seed = seed;
    }
    let Some(bytes) = bytes_again(alloc, name, FILE_LIMIT, files)? else {
        return Ok(None);
    };
    match (read_image(alloc, bytes.as_slice()), config.check()) {
        (Ok(image), Ok(())) => Ok(Some(World::new(image, config))),
        _ => Ok(None),
    }
}

/// The event of this index of a request's journal, where it can be had.
fn event_again<F: Files>(
    alloc: Global,
    request: &Request,
    index: u64,
    files: &mut F,
) -> Result<Option<Event>, NoMemory> {
    let Request::Replay { journal: name, .. } = request else {
        return Ok(None);
    };
    let Some(bytes) = bytes_again(alloc, name, MOST_JOURNAL, files)? else {
        return Ok(None);
    };
    match read_journal(alloc, bytes.as_slice()) {
        Ok(journal) => Ok(event_at(&journal, index)),
        Err(_) => Ok(None),
    }
}

/// The event of this index of a journal, if it has so many.
fn event_at(journal: &Journal, index: u64) -> Option<Event> {
    let mut left = journal.events();
    for _before in 0..index {
        left.next()?;
    }
    left.next()
}

/// The bytes of a file, where it can be read and has no more than so many.
fn bytes_again<F: Files>(
    alloc: Global,
    name: &Text,
    limit: usize,
    files: &mut F,
) -> Result<Option<Vec<u8>>, NoMemory> {
    let mut bytes = Vec::new(alloc);
    match files.read_all(name.as_str(), limit, &mut bytes) {
        Ok(()) => Ok(Some(bytes)),
        Err(FileAnswer::NoMemory) => Err(NoMemory),
        Err(_) => Ok(None),
    }
}
