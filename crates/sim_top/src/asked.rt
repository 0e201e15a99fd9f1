//! The settings, the image and the journal that a request asks for.
ghost use Rattle.std.specs.Prelude.{◌≡◌, Some, IfOk};
ghost use Rattle.sim_base.specs.Settings.{IsChecked};
ghost use Rattle.sim_config.specs.Request.{replayed_name};
ghost use Rattle.sim_top.specs.Stage.{reads};
ghost use Rattle.sim_top.specs.Asked.{settings, image, machine, replayed, with_seed};
ghost use Rattle.sim_top.specs.Inner.{HasImage, Tells};

use crate::files::{image_in, journal_in, settings_in};
use crate::outcomes::Halt;
use elf_image::{Image, World};
use event_journal::Journal;
use sim_base::{Config, Text};
use sim_config::Request;
use sim_outside::Files;
use std::alloc::Global;
use workload_gen::generate;

/// The machine of a request: its image under its settings.
pub(crate) fn machine_of<F: Files>(
    alloc: Global,
    request: &Request,
    files: &mut F,
) -> Result<World, Halt>
    requires { HasImage request.now }
    ensures stage { Tells (machine request.now) (reads (F.holds files.old) (F.read_faults files.old) (F.read_faults files.new)) result }
    ensures kept { F.holds files.new ≡ F.holds files.old }
    ensures writes { F.write_faults files.new ≡ F.write_faults files.old }
{
    let config = settings_of(alloc, request, files)?;
    let image = image_of(alloc, request, files)?;
    Ok(World::new(image, config))
}

/// The settings of a request: those of its file or what stands for them, with its seed.
fn settings_of<F: Files>(alloc: Global, request: &Request, files: &mut F) -> Result<Config, Halt>
    ensures stage { Tells (settings request.now) (reads (F.holds files.old) (F.read_faults files.old) (F.read_faults files.new)) result }
    ensures checked { IfOk result IsChecked }
    ensures kept { F.holds files.new ≡ F.holds files.old }
    ensures writes { F.write_faults files.new ≡ F.write_faults files.old }
{
    let accepted = match request.config_name() {
        Some(name) => settings_in(alloc, name.as_str(), files)?,
        None => request.settings_unnamed(),
    };
    Ok(with_seed(accepted, request.seed_of()))
}

/// Settings with a seed in the place of theirs, if one is given.
fn with_seed(config: Config, seed: Option<u64>) -> Config
    requires { IsChecked config }
    ensures config { result ≡ with_seed seed config }
    ensures checked { IsChecked result }
{
    match seed {
        Some(seed) => Config { seed, ..config },
        None => config,
    }
}

/// The image of a request: that of its file, or a workload.
fn image_of<F: Files>(alloc: Global, request: &Request, files: &mut F) -> Result<Image, Halt>
    requires { HasImage request.now }
    ensures stage { Tells (image request.now) (reads (F.holds files.old) (F.read_faults files.old) (F.read_faults files.new)) result }
    ensures kept { F.holds files.new ≡ F.holds files.old }
    ensures writes { F.write_faults files.new ≡ F.write_faults files.old }
{
    if let Some(name) = request.image_name() {
        return image_in(alloc, name.as_str(), files);
    }
    match request.workload_of() {
        Some((kind, seed)) => Ok(generate(alloc, kind, seed)?),
        None => unreachable!(),
    }
}

/// The journal that a request replays, which is in the file of this name.
pub(crate) fn replayed_in<F: Files>(
    alloc: Global,
    request: &Request,
    name: &Text,
    files: &mut F,
) -> Result<Journal, Halt>
    requires { replayed_name request.now ≡ Some name.now }
    ensures stage { Tells (replayed request.now) (reads (F.holds files.old) (F.read_faults files.old) (F.read_faults files.new)) result }
    ensures kept { F.holds files.new ≡ F.holds files.old }
    ensures writes { F.write_faults files.new ≡ F.write_faults files.old }
{
    journal_in(alloc, name.as_str(), files)
}
