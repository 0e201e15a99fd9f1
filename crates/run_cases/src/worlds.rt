//! The program of a case and its settings.

ghost use Rattle.std.specs.Prelude.{IfSome};
ghost use Rattle.sim_base.specs.Settings.{IsChecked};

use crate::image;
use crate::words::{settings_text, value_of};
use elf_image::{Image, World, read_image};
use sim_base::Config;
use sim_config::config_of;
use std::alloc::Global;

/// The program of a case, under its settings.
pub fn world(alloc: Global, case: &str) -> Option<World> {
    let config = config(alloc, case)?;
    let image = program(alloc, case)?;
    Some(World::new(image, config))
}

/// The program of a case.
fn program(alloc: Global, case: &str) -> Option<Image> {
    let file = image::file(alloc, case).ok()?;
    read_image(alloc, file.as_slice()).ok()
}

/// The settings of a case.
fn config(alloc: Global, case: &str) -> Option<Config>
    ensures { IfSome result IsChecked }
{
    if value_of(case, "config").is_none() {
        return Some(Config::defaults());
    }
    let text = settings_text(alloc, case).ok()?;
    config_of(alloc, text.as_bytes()).ok()
}
