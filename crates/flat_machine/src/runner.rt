//! A run of the flat machine by its only thread.

ghost use Rattle.std.specs.Prelude.{◌≡◌, IfOk};
ghost use Rattle.flat_machine.specs.Run.{after};

use crate::machine::Flat;
use elf_image::World;
use sim_base::NoMemory;
use std::alloc::Global;

/// Runs a program as long as it has one thread: its only legal action is made again and again, until there is none, or
/// another is legal too, or `most` actions were made.
pub fn run(alloc: Global, world: &World, most: u64) -> Result<Flat, NoMemory>
    ensures { IfOk result (λ flat. flat ≡ after world.now most) }
{
    let mut flat = Flat::start(alloc, world)?;
    for _made in 0..most {
        if !flat.go_on(alloc, world)? {
            return Ok(flat);
        }
    }
    Ok(flat)
}
