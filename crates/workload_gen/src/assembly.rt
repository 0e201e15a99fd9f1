//! Listings of an assembler, and the bytes of code that they stand for.

ghost use Rattle.std.specs.Prelude.{◌≡◌, ◌≤◌, ◌<◌, ◌*◌, ◌%◌, length, All, IfOk, IfSome, option_to_list};
ghost use Rattle.rv_decode.specs.Valid.{IsValid, IsSigned};
ghost use Rattle.workload_gen.specs.Assembly.{place_of, distance, instruction_at, instructions};
ghost use Rattle.workload_gen.specs.Sound.{IsSound};
ghost use Rattle.workload_gen.specs.Workload.{IsCodeOf};

use rv_decode::{Instr, Op};
use rv_encode::encode;
use sim_base::NoMemory;
use std::alloc::Global;

/// How many bytes an instruction has.
const WORD: u64 = 4;

/// The name of a place in a listing.
#[derive(Clone, Copy, PartialEq, Eq)]
pub(crate) enum Label {
    /// Thread 0 spawns a worker.
    Spawn,
    /// It joins one.
    Join,
    /// It takes a digit.
    Hex,
    /// It stores a digit.
    Put,
    /// A spawn was refused.
    Fail,
    /// It ends the run.
    End,
    /// A worker begins.
    Worker,
    /// A round begins.
    Round,
    /// A worker has the lock.
    Got,
    /// A worker waits for the others.
    Wait,
    /// A worker is the last to come.
    Last,
    /// A worker takes a number.
    Take,
    /// It adds 1 to it.
    AddOne,
    /// It has a number to give.
    Have,
    /// The place that it gives to may be full.
    Full,
    /// It gives its number to the next worker.
    Give,
    /// It adds its number to the sum.
    Sum,
    /// A round is over.
    Next,
}

/// A line of a listing.
#[derive(Clone, Copy)]
pub(crate) enum Statement {
    /// A label, which names the place where the next instruction stands.
    At(Label),
    /// An instruction as it is.
    Plain(Instr),
    /// Adds to a register how many bytes of code stand before a label.
    AddPlace(u8, Label),
    /// A branch to a label.
    BranchTo {
        op: Op,
        rs1: u8,
        rs2: u8,
        label: Label,
    },
    /// A jump to a label.
    JumpTo(Label),
}

/// The code of a listing: the words of its instructions, each of four bytes with the least significant first.
pub(crate) fn assemble(alloc: Global, listing: &[Statement]) -> Result<Vec<u8>, NoMemory>
    requires few { length listing.now ≤ 200 }
    requires sound { All IsSound listing.now }
    ensures value { IfOk result (λ code. IsCodeOf (instructions listing.now) code.items) }
    ensures size { IfOk result (λ code. length code.items ≡ 4 * length (instructions listing.now)) }
    ensures small { IfOk result (λ code. length code.items ≤ 800) }
{
    let mut code = Vec::new(alloc);
    for &statement in listing {
        if let Some(instr) = instruction_at(listing, code.len() as u64, statement) {
            code.extend_from_slice(&encode(&instr).to_le_bytes())?;
        }
    }
    Ok(code)
}

/// The instruction of a statement that stands at a place of a listing; a label is none.
fn instruction_at(listing: &[Statement], here: u64, statement: Statement) -> Option<Instr>
    requires few { length listing.now ≤ 200 }
    requires sound { IsSound statement }
    requires near { here ≤ 800 }
    requires aligned { here % 4 ≡ 0 }
    ensures value { option_to_list result ≡ instruction_at listing.now here statement }
    ensures valid { IfSome result IsValid }
{
    match statement {
        Statement::At(_) => None,
        Statement::Plain(instr) => Some(instr),
        Statement::AddPlace(rd, label) => Some(Instr::Imm {
            op: Op::Addi,
            rd,
            rs1: rd,
            imm: place_of(label, listing),
        }),
        Statement::BranchTo {
            op,
            rs1,
            rs2,
            label,
        } => Some(Instr::Branch {
            op,
            rs1,
            rs2,
            imm: distance(here, place_of(label, listing)),
        }),
        Statement::JumpTo(label) => Some(Instr::Jal {
            rd: 0,
            imm: distance(here, place_of(label, listing)),
        }),
    }
}

/// How many bytes of code stand before a label. A label that isn't there stands at the end.
fn place_of(label: Label, listing: &[Statement]) -> u64
    requires { length listing.now ≤ 200 }
    ensures value { result ≡ place_of label listing.now }
    ensures near { result ≤ 800 }
    ensures aligned { result % 4 ≡ 0 }
{
    let mut place = 0;
    for &statement in listing {
        match statement {
            Statement::At(other) => {
                if label == other {
                    return place;
                }
            }
            _ => place += WORD,
        }
    }
    place
}

/// How far one place is from another, as a signed number modulo 2^64. Between places of a short listing it has 13 bits.
fn distance(here: u64, there: u64) -> u64
    requires from_near { here ≤ 800 }
    requires to_near { there ≤ 800 }
    requires from_aligned { here % 4 ≡ 0 }
    requires to_aligned { there % 4 ≡ 0 }
    ensures value { result ≡ distance here there }
    ensures short { IsSigned 13 result }
    ensures even { result % 2 ≡ 0 }
{
    there.wrapping_sub(here)
}
