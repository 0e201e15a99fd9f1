//! Which files the words name, to be read and to be written.

use sim_base::{NoMemory, Text};
use sim_config::Request;
use std::alloc::Global;

/// The image that a request names, if it names one.
pub(crate) fn image_of(request: &Request) -> Option<&str> {
    match request {
        Request::Run { image, .. } | Request::Replay { image, .. } => Some(image.as_str()),
        Request::Gen { .. } | Request::Bench { .. } => None,
    }
}

/// Appends the files that are read, in order, a line each.
pub(crate) fn push_read(
    alloc: Global,
    text: &mut String,
    request: &Request,
) -> Result<(), NoMemory> {
    match request {
        Request::Run { image, config, .. } => {
            push_settings(alloc, text, config)?;
            push_name(alloc, text, "image", image)?;
        }
        Request::Replay {
            image,
            journal,
            config,
            ..
        } => {
            push_settings(alloc, text, config)?;
            push_name(alloc, text, "image", image)?;
            push_name(alloc, text, "journal", journal)?;
        }
        Request::Gen { .. } | Request::Bench { .. } => {}
    }
    Ok(())
}

/// Appends the file that is written, if one is.
pub(crate) fn push_written(
    alloc: Global,
    text: &mut String,
    request: &Request,
) -> Result<(), NoMemory> {
    match request {
        Request::Run {
            journal: Some(journal),
            ..
        } => push_name(alloc, text, "journal", journal),
        Request::Gen { out, .. } => push_name(alloc, text, "image", out),
        _ => Ok(()),
    }
}

/// Appends the settings' file, where one is named.
fn push_settings(alloc: Global, text: &mut String, config: &Option<Text>) -> Result<(), NoMemory> {
    match config {
        Some(name) => push_name(alloc, text, "settings", name),
        None => Ok(()),
    }
}

/// Appends a line that names a file.
fn push_name(alloc: Global, text: &mut String, what: &str, name: &Text) -> Result<(), NoMemory> {
    let name = name.as_str();
    text.push_str(format!(in alloc; "  {what}: {name}\n")?.as_str())?;
    Ok(())
}
