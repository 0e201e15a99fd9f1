//! The commands, the requests that they make, and what a request names: the files that are read and written, the seed, the
//! workload.

ghost use Rattle.std.specs.Prelude.{◌≡◌, option_copied};
ghost use Rattle.sim_base.specs.Settings.{IsChecked};
ghost use Rattle.sim_config.specs.Request.{TellsRequest, asked_command, command_named, config_name, form_of, image_name, journal_name, replayed_name, request_made, seed_of, settings_unnamed, workload_name, workload_of};
ghost use Rattle.sim_config.specs.Inner.{IsTakenByClap, given_found, lent_form};

mod bench;
mod generate;
mod replay;
mod run;

use crate::faults::RequestFault;
use crate::forms::Form;
use clap::ArgMatches;
use sim_base::{Config, Kind, Text};
use std::alloc::Global;

/// How many tiles `bench` runs a workload on.
const BENCH_TILES: u32 = 16;

/// What the words of the command line ask for. Files are named by their paths.
#[derive(Drop)]
pub enum Request {
    /// To run an image, under the settings of a file or the default ones, with a seed in place of the settings', and to
    /// write the run's journal to a file.
    Run {
        image: Text,
        config: Option<Text>,
        seed: Option<u64>,
        journal: Option<Text>,
    },
    /// To make the run of a journal's file again, under the same settings.
    Replay {
        image: Text,
        journal: Text,
        config: Option<Text>,
        seed: Option<u64>,
    },
    /// To write the workload of a kind and a seed to a file.
    Gen {
        kind: Kind,
        seed: u64,
        out: Text,
    },
    /// To run the workload `reduce` of a seed, on 16 tiles.
    Bench {
        seed: u64,
    },
}

/// What the first word asks for.
#[derive(Clone, Copy, Drop)]
pub enum Command {
    /// To run an image.
    Run,
    /// To make the run of a journal again.
    Replay,
    /// To write a workload.
    Gen,
    /// To run a workload.
    Bench,
}

impl Command {
    /// The command of a name.
    pub(crate) fn named(name: &str) -> Option<Command>
        ensures { result ≡ command_named name.now }
    {
        if name == "run" {
            Some(Command::Run)
        } else if name == "replay" {
            Some(Command::Replay)
        } else if name == "gen" {
            Some(Command::Gen)
        } else if name == "bench" {
            Some(Command::Bench)
        } else {
            None
        }
    }

    /// The form of the words after the command.
    pub(crate) fn form(self) -> Form
        ensures form { lent_form result ≡ form_of self }
        ensures taken { IsTakenByClap (form_of self) }
    {
        match self {
            Command::Run => run::form(),
            Command::Replay => replay::form(),
            Command::Gen => generate::form(),
            Command::Bench => bench::form(),
        }
    }

    /// The request that the command makes of what clap finds.
    pub(crate) fn read(
        self,
        alloc: Global,
        matches: &ArgMatches<'_>,
    ) -> Result<Request, RequestFault>
        ensures { TellsRequest result (request_made self (given_found (form_of self) matches.now)) }
    {
        match self {
            Command::Run => run::read(alloc, matches),
            Command::Replay => replay::read(alloc, matches),
            Command::Gen => generate::read(alloc, matches),
            Command::Bench => bench::read(matches),
        }
    }
}

impl Request {
    /// The command that makes the request.
    pub fn command(&self) -> Command
        ensures { result ≡ asked_command self.now }
    {
        match self {
            Request::Run { .. } => Command::Run,
            Request::Replay { .. } => Command::Replay,
            Request::Gen { .. } => Command::Gen,
            Request::Bench { .. } => Command::Bench,
        }
    }

    /// The file of the image that is run, if one is read.
    pub fn image_name(&self) -> Option<&Text>
        ensures { option_copied result ≡ image_name self.now }
    {
        match self {
            Request::Run { image, .. } | Request::Replay { image, .. } => Some(image),
            _ => None,
        }
    }

    /// The file of the settings, if one is read.
    pub fn config_name(&self) -> Option<&Text>
        ensures { option_copied result ≡ config_name self.now }
    {
        match self {
            Request::Run { config, .. } | Request::Replay { config, .. } => config.as_ref(),
            _ => None,
        }
    }

    /// The settings where no file of them is named.
    pub fn settings_unnamed(&self) -> Config
        ensures settings { result ≡ settings_unnamed self.now }
        ensures checked { IsChecked result }
    {
        let settings = Config::defaults();
        match self {
            Request::Bench { .. } => Config {
                tiles: BENCH_TILES,
                ..settings
            },
            _ => settings,
        }
    }

    /// The seed in place of the settings', if one is given.
    pub fn seed_of(&self) -> Option<u64>
        ensures { result ≡ seed_of self.now }
    {
        match self {
            Request::Run { seed, .. } | Request::Replay { seed, .. } => *seed,
            Request::Bench { seed } => Some(*seed),
            _ => None,
        }
    }

    /// The file of the journal that is replayed, if one is.
    pub fn replayed_name(&self) -> Option<&Text>
        ensures { option_copied result ≡ replayed_name self.now }
    {
        match self {
            Request::Replay { journal, .. } => Some(journal),
            _ => None,
        }
    }

    /// The file that the run's journal is written to, if it is.
    pub fn journal_name(&self) -> Option<&Text>
        ensures { option_copied result ≡ journal_name self.now }
    {
        match self {
            Request::Run { journal, .. } => journal.as_ref(),
            _ => None,
        }
    }

    /// The kind and the seed of the workload that is made, where no image's file is read.
    pub fn workload_of(&self) -> Option<(Kind, u64)>
        ensures { result ≡ workload_of self.now }
    {
        match self {
            Request::Gen { kind, seed, .. } => Some((*kind, *seed)),
            Request::Bench { seed } => Some((Kind::Reduce, *seed)),
            _ => None,
        }
    }

    /// The file that the workload is written to, where it is only written.
    pub fn workload_name(&self) -> Option<&Text>
        ensures { option_copied result ≡ workload_name self.now }
    {
        match self {
            Request::Gen { out, .. } => Some(out),
            _ => None,
        }
    }
}
