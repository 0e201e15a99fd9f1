//! The registers of a thread that begins.

ghost use Rattle.std.specs.Prelude.{◌≡◌, ◌<◌};
ghost use Rattle.rv_hart.specs.Start.{start_registers};

use crate::registers::{A0, SP};
use elf_image::World;
use rv_exec::Regs;
use sim_base::NodeId;

/// The registers of a thread that begins on a tile: `sp` is 64 bytes below the end of the tile's stack, `a0` has the
/// argument, and every other register is zero.
pub fn start_registers(world: &World, tile: NodeId, arg: u64) -> Regs
    requires { tile < world.now.config.tiles }
    ensures { result ≡ start_registers world.now tile arg }
{
    let mut regs = Regs::new();
    regs.set(SP, world.stack_end(tile) - 64);
    regs.set(A0, arg);
    regs
}
