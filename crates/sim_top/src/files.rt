//! Reading the files that a request names.
ghost use Rattle.std.specs.Prelude.{◌≡◌, IfOk};
ghost use Rattle.sim_base.specs.Settings.{IsChecked};
ghost use Rattle.sim_top.specs.Stage.{in_file, reads};
ghost use Rattle.sim_top.specs.Asked.{settings_said, image_said, journal_said};
ghost use Rattle.sim_top.specs.Inner.{ReadsFile, Tells};

use crate::outcomes::{Halt, JournalFault, Outcome};
use elf_image::{FILE_LIMIT, Image, ImageFault, ImageRefusal, read_image};
use event_journal::Journal;
use journal_file::{JournalRefusal, MOST_BYTES, read_journal};
use sim_base::{Bytes, Config, Field};
use sim_config::{ConfigFault, config_of};
use sim_outside::{FileAnswer, Files};
use std::alloc::Global;

/// The settings of a file.
pub(crate) fn settings_in<F: Files>(
    alloc: Global,
    name: &str,
    files: &mut F,
) -> Result<Config, Halt>
    ensures stage { Tells (in_file name.now settings_said) (reads (F.holds files.old) (F.read_faults files.old) (F.read_faults files.new)) result }
    ensures checked { IfOk result IsChecked }
    ensures kept { F.holds files.new ≡ F.holds files.old }
    ensures writes { F.write_faults files.new ≡ F.write_faults files.old }
{
    let too_long = Outcome::BadConfig {
        field: Field::Length,
    };
    let bytes = read_file(alloc, name, sim_config::MOST_BYTES, too_long, files)?;
    match config_of(alloc, bytes.as_slice()) {
        Ok(config) => Ok(config),
        Err(ConfigFault::Bad { field }) => Err(Halt::Refused {
            outcome: Outcome::BadConfig { field },
        }),
        Err(ConfigFault::NoMemory) => Err(Halt::NoMemory),
    }
}

/// The image of a file.
pub(crate) fn image_in<F: Files>(alloc: Global, name: &str, files: &mut F) -> Result<Image, Halt>
    ensures stage { Tells (in_file name.now image_said) (reads (F.holds files.old) (F.read_faults files.old) (F.read_faults files.new)) result }
    ensures kept { F.holds files.new ≡ F.holds files.old }
    ensures writes { F.write_faults files.new ≡ F.write_faults files.old }
{
    let too_long = Outcome::BadImage {
        fault: ImageFault::TooLong,
    };
    let bytes = read_file(alloc, name, FILE_LIMIT, too_long, files)?;
    match read_image(alloc, bytes.as_slice()) {
        Ok(image) => Ok(image),
        Err(ImageRefusal::Bad { fault }) => Err(Halt::Refused {
            outcome: Outcome::BadImage { fault },
        }),
        Err(ImageRefusal::NoMemory) => Err(Halt::NoMemory),
    }
}

/// The journal of a file.
pub(crate) fn journal_in<F: Files>(
    alloc: Global,
    name: &str,
    files: &mut F,
) -> Result<Journal, Halt>
    ensures stage { Tells (in_file name.now journal_said) (reads (F.holds files.old) (F.read_faults files.old) (F.read_faults files.new)) result }
    ensures kept { F.holds files.new ≡ F.holds files.old }
    ensures writes { F.write_faults files.new ≡ F.write_faults files.old }
{
    let too_long = Outcome::BadJournal {
        fault: JournalFault::TooLong,
    };
    let bytes = read_file(alloc, name, MOST_BYTES, too_long, files)?;
    match read_journal(alloc, bytes.as_slice()) {
        Ok(journal) => Ok(journal),
        Err(JournalRefusal::TooLong) => Err(Halt::Refused { outcome: too_long }),
        Err(JournalRefusal::Byte { at }) => Err(Halt::Refused {
            outcome: Outcome::BadJournal {
                fault: JournalFault::Byte { at },
            },
        }),
        Err(JournalRefusal::NoMemory) => Err(Halt::NoMemory),
    }
}

/// The bytes of a file of at most so many, or that a longer one is refused.
fn read_file<F: Files>(
    alloc: Global,
    name: &str,
    limit: usize,
    too_long: Outcome,
    files: &mut F,
) -> Result<Bytes, Halt>
    ensures reads { ReadsFile (reads (F.holds files.old) (F.read_faults files.old) (F.read_faults files.new)) name.now limit too_long result }
    ensures kept { F.holds files.new ≡ F.holds files.old }
    ensures writes { F.write_faults files.new ≡ F.write_faults files.old }
{
    let mut bytes = Vec::new(alloc);
    match files.read_all(name, limit, &mut bytes) {
        Ok(()) => Ok(Bytes::from_vec(bytes)),
        Err(FileAnswer::TooLong) => Err(Halt::Refused { outcome: too_long }),
        Err(FileAnswer::Failed) => Err(Halt::Refused {
            outcome: Outcome::ReadFault,
        }),
        Err(FileAnswer::NoMemory) => Err(Halt::NoMemory),
    }
}
