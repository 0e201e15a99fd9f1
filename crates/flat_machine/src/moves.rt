//! What a thread of the flat machine does in one action: an instruction, a failed SC, a byte of a write.

ghost use Rattle.std.specs.Prelude.{◌≡◌, ◌<◌, IfSome, true};
ghost use Rattle.std.specs.List.{list_any};
ghost use Rattle.flat_machine.specs.State.{new_thread, started};
ghost use Rattle.flat_machine.specs.Action.{Change, step_of, executed, executed_by_step, accessed, passed, past_call, conditional_rd, failed, failed_conditional, loaded, returned, stands_on, begun_by};
ghost use Rattle.flat_machine.specs.Gives.{Acts};
ghost use Rattle.flat_machine.specs.Inner.{Executes, HasRegister};

use crate::machine::ActFault;
use crate::regions::Memory;
use crate::threads::{Status, Thread};
use elf_image::World;
use rv_exec::{Access, AccessOp, Regs, finish};
use rv_hart::registers::A0;
use rv_hart::{Span, Step, next_step, reserved, span_of, start_registers};
use sim_base::{Bytes, NodeId};
use std::alloc::Global;

/// A thread that is to begin at an entry with an argument.
pub(crate) fn new_thread(entry: u64, arg: u64) -> Thread
    ensures { result ≡ new_thread entry arg }
{
    Thread {
        regs: Regs::new(),
        pc: entry,
        tile: None,
        reservation: None,
        joiner: None,
        status: Status::New { entry, arg },
    }
}

/// A thread begins on a tile at an entry, with this argument.
pub(crate) fn start(world: &World, tile: NodeId, entry: u64, arg: u64, thread: &mut Thread)
    requires { tile < world.now.config.tiles }
    ensures { thread.new ≡ started world.now tile entry arg thread.old }
{
    thread.regs = start_registers(world, tile, arg);
    thread.pc = entry;
    thread.tile = Some(tile);
    thread.reservation = None;
    thread.status = Status::Ready;
}

/// The next step of the hart on which a thread runs.
pub(crate) fn step_of(world: &World, number: u32, thread: &Thread) -> Step
    ensures step { result ≡ step_of world.now number thread.now }
    ensures register { HasRegister result }
{
    next_step(world, &thread.regs, thread.pc, thread.reservation, number)
}

/// A ready thread executes its next instruction, on this memory. The answer has the bytes that it wrote, if any.
pub(crate) fn execute(
    alloc: Global,
    world: &World,
    number: u32,
    memory: &mut Memory,
    thread: &mut Thread,
) -> Result<Option<Span>, ActFault>
    ensures { Executes result memory.old memory.new thread.old thread.new
        (executed world.now memory.old number thread.old) }
{
    match thread.status {
        Status::Ready => {}
        _ => return Err(ActFault::NotLegal),
    }
    let step = step_of(world, number, thread);
    make(alloc, memory, thread, step)
}

/// A ready thread makes its next step on this memory. The answer has the bytes that it wrote, if any.
pub(crate) fn make(
    alloc: Global,
    memory: &mut Memory,
    thread: &mut Thread,
    step: Step,
) -> Result<Option<Span>, ActFault>
    requires { HasRegister step }
    ensures { Executes result memory.old memory.new thread.old thread.new
        (executed_by_step memory.old thread.old step) }
{
    match step {
        Step::Next { rd, value, pc, .. } => {
            thread.regs.set(rd, value);
            thread.pc = pc;
        }
        Step::Access { access } => return Ok(make_access(memory, thread, &access)),
        Step::ScFails { .. } => return Err(ActFault::NotLegal),
        Step::Answer { value } => pass_call(thread, value),
        Step::Ask { call } => thread.status = Status::Asked { call },
        Step::Write { addr, len } => {
            let bytes = Bytes::new(alloc, len as usize)?;
            thread.status = Status::Writing { addr, len, bytes };
        }
        Step::Exit { code } => {
            thread.tile = None;
            thread.status = Status::Left { code };
        }
        Step::Trap { cause } => {
            let pc = thread.pc;
            thread.status = Status::Trapped { cause, pc };
        }
    }
    Ok(None)
}

/// An access works on the number that its bytes hold. The answer has the bytes that it wrote, if any.
fn make_access(memory: &mut Memory, thread: &mut Thread, access: &Access) -> Option<Span>
    ensures { accessed memory.old thread.old access.now ≡ record { memory = memory.new; written = result; thread = thread.new } }
{
    let addr = access.addr();
    let size = access.size();
    let done = finish(access, memory.load(addr, size));
    let mut written = None;
    if let Some(value) = done.write {
        memory.store(addr, size, value);
        written = Some(span_of(access));
    }
    thread.reservation = reserved(access, thread.reservation);
    pass(thread, access.rd(), done.value);
    written
}

/// `rd`, below 32, gets a value, and the thread goes on behind the instruction.
fn pass(thread: &mut Thread, rd: u8, value: u64)
    requires { rd < 32 }
    ensures { thread.new ≡ passed thread.old rd value }
{
    thread.regs.set(rd, value);
    thread.pc = thread.pc.wrapping_add(4);
}

/// `a0` gets the answer of a call, and the thread goes on behind it.
fn pass_call(thread: &mut Thread, value: u64)
    ensures { thread.new ≡ past_call thread.old value }
{
    thread.regs.set(A0, value);
    thread.pc = thread.pc.wrapping_add(4);
    thread.status = Status::Ready;
}

/// The register that a store-conditional answers in, where the step is one.
pub(crate) fn conditional_rd(step: &Step) -> Option<u8>
    requires { HasRegister step.now }
    ensures value { result ≡ conditional_rd step.now }
    ensures known { IfSome result (λ rd. rd < 32) }
{
    match step {
        Step::ScFails { rd } => Some(*rd),
        Step::Access { access } if matches!(access.op(), AccessOp::Sc) => Some(access.rd()),
        _ => None,
    }
}

/// A store-conditional fails: `rd` gets 1, and the reservation ends.
pub(crate) fn fail(world: &World, number: u32, thread: &mut Thread) -> Result<(), ActFault>
    ensures { Acts result thread.old thread.new (failed world.now number thread.old) }
{
    match thread.status {
        Status::Ready => {}
        _ => return Err(ActFault::NotLegal),
    }
    match conditional_rd(&step_of(world, number, thread)) {
        Some(rd) => {
            pass(thread, rd, 1);
            thread.reservation = None;
            Ok(())
        }
        None => Err(ActFault::NotLegal),
    }
}

/// A new thread begins on a vacant tile.
pub(crate) fn begin(world: &World, tile: NodeId, thread: &mut Thread) -> Result<(), ActFault>
    requires { tile < world.now.config.tiles }
    ensures { Acts result thread.old thread.new (begun_by world.now tile thread.old true thread.old.status) }
{
    match thread.status {
        Status::New { entry, arg } => {
            start(world, tile, entry, arg, thread);
            Ok(())
        }
        _ => Err(ActFault::NotLegal),
    }
}

/// Whether some thread stands on a tile.
pub(crate) fn is_taken(threads: &[Thread], tile: NodeId) -> bool
    ensures { result ≡ list_any (stands_on tile) threads.now }
{
    threads.iter().any(|thread| stands_on(tile, thread))
}

/// Whether a thread stands on a tile.
fn stands_on(tile: NodeId, thread: &Thread) -> bool
    ensures { result ≡ stands_on tile thread.now }
{
    match thread.tile {
        Some(place) => place == tile,
        None => false,
    }
}

/// A write call with bytes still to read reads the next one.
pub(crate) fn load(memory: &Memory, thread: &mut Thread) -> Result<(), ActFault>
    ensures { Acts result thread.old thread.new (loaded memory.now thread.old) }
{
    match &mut thread.status {
        Status::Writing { addr, len, bytes } => {
            let read = bytes.len() as u64;
            if read >= *len {
                return Err(ActFault::NotLegal);
            }
            bytes.push(memory.byte(addr.wrapping_add(read)))?;
            Ok(())
        }
        _ => Err(ActFault::NotLegal),
    }
}

/// A thread whose call was served takes the answer.
pub(crate) fn take_answer(thread: &mut Thread) -> Result<(), ActFault>
    ensures { Acts result thread.old thread.new (returned thread.old) }
{
    match thread.status {
        Status::Answered { value } => {
            pass_call(thread, value);
            Ok(())
        }
        _ => Err(ActFault::NotLegal),
    }
}
