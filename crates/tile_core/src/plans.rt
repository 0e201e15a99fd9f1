//! What a core's next instruction asks of its tile.

ghost use Rattle.std.specs.Prelude.{◌≡◌};
ghost use Rattle.rv_hart.specs.Inner.{IsStep};
ghost use Rattle.tile_core.specs.Plan.{plan_by};
ghost use Rattle.tile_core.specs.Inner.{IsPlan};

use elf_image::World;
use rv_exec::Access;
use rv_hart::Step;
use rv_hart::registers::A0;
use sim_base::{Cause, CostClass};
use wire_msg::Call;

/// What a core's next instruction asks of its tile.
#[derive(Drop)]
pub enum Plan {
    /// Nothing but the core: register `rd`, below 32, gets `value`, and the thread goes on at `pc`, `cost` cycles later.
    /// `answered` is true for a call that the tile answers itself.
    Local {
        rd: u8,
        value: u64,
        pc: u64,
        cost: u64,
        answered: bool,
    },
    /// An access to memory, whose bytes have the right that it needs; a store-conditional has its reservation.
    Access {
        access: Access,
    },
    /// A store-conditional without its reservation fails: `rd`, below 32, gets 1.
    ScFails {
        rd: u8,
    },
    /// A call that the control server serves.
    Send {
        call: Call,
    },
    /// The thread exits with a code.
    Exit {
        code: u8,
    },
    /// A write call of `len` bytes, 1 to 4096, from `addr` on, each of which may be read.
    Write {
        addr: u64,
        len: u64,
    },
    /// The instruction traps.
    Trap {
        cause: Cause,
    },
}

/// What a hart's step at this pc is to its tile.
#[inline(always)]
pub(crate) fn plan_for(world: &World, pc: u64, step: Step) -> Plan
    requires { IsStep world.now step }
    ensures plan { result ≡ plan_by world.now pc step }
    ensures known { IsPlan world.now result }
{
    match step {
        Step::Next {
            class,
            rd,
            value,
            pc,
        } => Plan::Local {
            rd,
            value,
            pc,
            cost: world.cost(class),
            answered: false,
        },
        Step::Access { access } => Plan::Access { access },
        Step::ScFails { rd } => Plan::ScFails { rd },
        Step::Answer { value } => Plan::Local {
            rd: A0,
            value,
            pc: pc.wrapping_add(4),
            cost: world.cost(CostClass::Call),
            answered: true,
        },
        Step::Ask { call } => Plan::Send { call },
        Step::Write { addr, len } => Plan::Write { addr, len },
        Step::Exit { code } => Plan::Exit { code },
        Step::Trap { cause } => Plan::Trap { cause },
    }
}
