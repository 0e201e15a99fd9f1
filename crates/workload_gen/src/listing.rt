//! The listings of the workloads. Thread 0 spawns the workers, joins them, and writes what they left at the data's start, in 16
//! hexadecimal digits. This simulator's own.

ghost use Rattle.std.specs.Prelude.{◌≡◌, ◌<◌, ◌++◌, OnOk, IfOk};
ghost use Rattle.workload_gen.specs.Listing.{spawning, joining, digits, writing, main, beginning, reduce, lock, barrier, pipeline, round, ending, listing};

use crate::assembly::Label::{
    AddOne, End, Fail, Full, Give, Got, Have, Hex, Join, Last, Next, Put, Round, Spawn, Sum, Take,
    Wait, Worker,
};
use crate::assembly::Statement;
use crate::assembly::Statement::{AddPlace, At, JumpTo};
use crate::instructions::{
    A0, A1, A2, A3, A7, S0, S1, S2, S3, S4, S5, S6, T0, T1, T2, T3, T4, X0, add, addi, amoadd_d,
    amoadd_w, amoswap_d, amoswap_w, andi, beq, bge, blt, bne, ecall, ld, li, lui, lw, minus, mv,
    sb, sd, slli, slti, srl, sw,
};
use sim_base::{Kind, NoMemory};
use std::alloc::Global;

/// The listing of a workload with so many workers and rounds: first what thread 0 runs, and then what each worker does.
pub(crate) fn listing_of(
    alloc: Global,
    kind: Kind,
    workers: u64,
    rounds: u64,
) -> Result<Vec<Statement>, NoMemory>
    requires { 0 < workers }
    ensures { IfOk result (λ made. made.items ≡ listing kind workers rounds) }
{
    let mut statements = Vec::new(alloc);
    push_main(&mut statements, workers)?;
    statements.extend_from_slice(&beginning(rounds))?;
    push_round(&mut statements, kind, workers)?;
    statements.extend_from_slice(&ending())?;
    Ok(statements)
}

/// Appends what thread 0 runs.
fn push_main(statements: &mut Vec<Statement>, workers: u64) -> Result<(), NoMemory>
    ensures { OnOk result (statements.new.items ≡ statements.old.items ++ main workers) }
{
    statements.extend_from_slice(&spawning(workers))?;
    statements.extend_from_slice(&joining())?;
    statements.extend_from_slice(&digits())?;
    statements.extend_from_slice(&writing())?;
    Ok(())
}

/// Appends a worker's rounds.
fn push_round(statements: &mut Vec<Statement>, kind: Kind, workers: u64) -> Result<(), NoMemory>
    requires { 0 < workers }
    ensures { OnOk result (statements.new.items ≡ statements.old.items ++ round kind workers) }
{
    match kind {
        Kind::Lock => statements.extend_from_slice(&lock())?,
        Kind::Barrier => statements.extend_from_slice(&barrier(workers))?,
        Kind::Pipeline => statements.extend_from_slice(&pipeline(workers))?,
        Kind::Reduce => statements.extend_from_slice(&reduce())?,
    }
    Ok(())
}

/// Thread 0 spawns the workers, with the numbers from 1 on as their arguments; where one is refused it exits with 1.
fn spawning(workers: u64) -> [Statement; 14]
    ensures { result ≡ spawning workers }
{
    [
        li(S0, 0),
        li(S1, workers),
        lui(S2, 0x20),
        At(Spawn),
        li(A7, 1),
        slli(A7, A7, 11),
        lui(A0, 0x10),
        AddPlace(A0, Worker),
        addi(A1, S0, 1),
        ecall(),
        blt(A0, X0, Fail),
        addi(S0, S0, 1),
        blt(S0, S1, Spawn),
        li(S0, 1),
    ]
}

/// It joins the threads 1 to the last worker's.
fn joining() -> [Statement; 8]
    ensures { result ≡ joining }
{
    [
        At(Join),
        li(A7, 1),
        slli(A7, A7, 11),
        addi(A7, A7, 1),
        mv(A0, S0),
        ecall(),
        addi(S0, S0, 1),
        bge(S1, S0, Join),
    ]
}

/// It writes the number's digits and a newline to memory.
fn digits() -> [Statement; 17]
    ensures { result ≡ digits }
{
    [
        ld(S3, 0, S2),
        addi(S4, S2, 1536),
        li(S5, 60),
        At(Hex),
        srl(T0, S3, S5),
        andi(T0, T0, 15),
        addi(T1, T0, 48),
        slti(T2, T0, 10),
        bne(T2, X0, Put),
        addi(T1, T0, 87),
        At(Put),
        sb(T1, 0, S4),
        addi(S4, S4, 1),
        addi(S5, S5, minus(4)),
        bge(S5, X0, Hex),
        li(T1, 10),
        sb(T1, 0, S4),
    ]
}

/// It writes them out and exits.
fn writing() -> [Statement; 12]
    ensures { result ≡ writing }
{
    [
        li(A0, 1),
        addi(A1, S2, 1536),
        li(A2, 17),
        li(A7, 64),
        ecall(),
        li(A0, 0),
        JumpTo(End),
        At(Fail),
        li(A0, 1),
        At(End),
        li(A7, 94),
        ecall(),
    ]
}

/// A worker begins with its number as argument.
fn beginning(rounds: u64) -> [Statement; 4]
    ensures { result ≡ beginning rounds }
{
    [At(Worker), mv(S1, A0), lui(S2, 0x20), li(S0, rounds)]
}

/// In each round each worker adds its number to the sum, which is one atomic access.
fn reduce() -> [Statement; 2]
    ensures { result ≡ reduce }
{
    [At(Round), amoadd_d(X0, S1, S2)]
}

/// In each round each worker takes a lock, on which it waits by futex, and adds its number to the sum.
fn lock() -> [Statement; 23]
    ensures { result ≡ lock }
{
    [
        addi(S3, S2, 64),
        At(Round),
        li(T0, 1),
        amoswap_w(T1, T0, S3),
        beq(T1, X0, Got),
        mv(A0, S3),
        li(A1, 0),
        li(A2, 1),
        li(A3, 0),
        li(A7, 98),
        ecall(),
        JumpTo(Round),
        At(Got),
        ld(T1, 0, S2),
        add(T1, T1, S1),
        sd(T1, 0, S2),
        amoswap_w(X0, X0, S3),
        mv(A0, S3),
        li(A1, 1),
        li(A2, 1),
        li(A3, 0),
        li(A7, 98),
        ecall(),
    ]
}

/// In each round each worker adds its number to the sum and waits until all have.
fn barrier(workers: u64) -> [Statement; 29]
    requires { 0 < workers }
    ensures { result ≡ barrier workers }
{
    [
        addi(S4, S2, 128),
        addi(S6, S2, 192),
        At(Round),
        lw(T3, 0, S6),
        amoadd_d(X0, S1, S2),
        li(T0, 1),
        amoadd_w(T1, T0, S4),
        li(T2, workers - 1),
        beq(T1, T2, Last),
        At(Wait),
        lw(T4, 0, S6),
        bne(T4, T3, Next),
        mv(A0, S6),
        li(A1, 0),
        mv(A2, T3),
        li(A3, 0),
        li(A7, 98),
        ecall(),
        JumpTo(Wait),
        At(Last),
        amoswap_w(X0, X0, S4),
        addi(T3, T3, 1),
        sw(T3, 0, S6),
        mv(A0, S6),
        li(A1, 1),
        li(A2, workers),
        li(A3, 0),
        li(A7, 98),
        ecall(),
    ]
}

/// In each round each worker takes a number from the one before it, adds 1, and gives it to the next; the first makes a 1
/// and the last adds what it gets to the sum.
fn pipeline(workers: u64) -> [Statement; 30]
    ensures { result ≡ pipeline workers }
{
    [
        slli(S5, S1, 6),
        add(S5, S5, S2),
        addi(S5, S5, 192),
        addi(S6, S5, 64),
        At(Round),
        li(T0, 1),
        li(T1, 1),
        beq(S1, T1, Have),
        At(Take),
        amoswap_d(T0, X0, S5),
        bne(T0, X0, AddOne),
        li(A7, 124),
        ecall(),
        JumpTo(Take),
        At(AddOne),
        addi(T0, T0, 1),
        At(Have),
        li(T1, workers),
        beq(S1, T1, Sum),
        At(Full),
        ld(T1, 0, S6),
        beq(T1, X0, Give),
        li(A7, 124),
        ecall(),
        JumpTo(Full),
        At(Give),
        sd(T0, 0, S6),
        JumpTo(Next),
        At(Sum),
        amoadd_d(X0, T0, S2),
    ]
}

/// A worker counts its rounds down and exits.
fn ending() -> [Statement; 6]
    ensures { result ≡ ending }
{
    [
        At(Next),
        addi(S0, S0, minus(1)),
        bne(S0, X0, Round),
        li(A0, 0),
        li(A7, 93),
        ecall(),
    ]
}
