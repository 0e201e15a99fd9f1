//! Cases of a line's home: what it is told, and what it sends.

ghost use Rattle.std.specs.Prelude.{◌≡◌, IfSome};

use dir_slice::Dir;
use elf_image::{World, read_image};
use sim_base::{Config, LineData, NoMemory, NodeId};
use std::alloc::Global;
use wire_msg::{Msg, Out};

/// A program of one instruction, `ecall`, at 0x100C0: the first word of line 1027, whose home is tile 3 of 4.
const FILE: [u8; 124] = [
    0x7F, 0x45, 0x4C, 0x46, 2, 1, 1, 0, 0, 0, 0, 0, 0, 0, 0, 0, // e_ident
    2, 0, 0xF3, 0, 1, 0, 0, 0, // e_type, e_machine, e_version
    0xC0, 0, 0x01, 0, 0, 0, 0, 0, // e_entry
    64, 0, 0, 0, 0, 0, 0, 0, // e_phoff
    0, 0, 0, 0, 0, 0, 0, 0, // e_shoff
    0, 0, 0, 0, 64, 0, 56, 0, 1, 0, 0, 0, 0, 0, 0, 0, // e_flags to e_shstrndx
    1, 0, 0, 0, 5, 0, 0, 0, // p_type, p_flags
    120, 0, 0, 0, 0, 0, 0, 0, // p_offset
    0xC0, 0, 0x01, 0, 0, 0, 0, 0, // p_vaddr
    0xC0, 0, 0x01, 0, 0, 0, 0, 0, // p_paddr
    4, 0, 0, 0, 0, 0, 0, 0, // p_filesz
    4, 0, 0, 0, 0, 0, 0, 0, // p_memsz
    0, 0x10, 0, 0, 0, 0, 0, 0, // p_align
    0x73, 0, 0, 0, // ecall
];

/// The line that the program is in.
const LINE: u64 = 1027;

/// What a node tells the home, with the line's first byte where it sends the line.
#[derive(Clone, Copy)]
enum Told {
    GetS(NodeId),
    GetM(NodeId),
    Ack(NodeId),
    Fetched(NodeId, u8),
    Put(NodeId, u8),
}

/// What the home sends and to which node, with the line's first byte and the delay where it sends the line.
#[derive(Clone, Copy, PartialEq, Eq)]
enum Said {
    Inv(NodeId),
    Fetch(NodeId),
    FetchInv(NodeId),
    DataS(NodeId, u8, u64),
    DataM(NodeId, u8, u64),
    Other,
}

/// Messages to the home, each with what it sends then, and the first byte of its memory after all of them.
struct Run {
    name: &'static str,
    rows: &'static [(Told, &'static [Said])],
    last: u8,
}

/// A delay is 2 * 2 * hops to the requester, 6, 60, and 2 * 2 * hops to the farthest sharer or to the owner. Node 3 is
/// the home's own tile, and node 4 is the control server, at tile 0.
static RUNS: [Run; 4] = [
    Run {
        name: "a writer waits for the sharers, and the request that waits comes after it",
        rows: &[
            (Told::GetS(1), &[Said::DataS(1, 0x73, 70)]),
            (Told::GetS(2), &[Said::DataS(2, 0x73, 70)]),
            (Told::GetM(0), &[Said::Inv(1), Said::Inv(2)]),
            (Told::GetS(1), &[]),
            (Told::Ack(1), &[]),
            (Told::Ack(2), &[Said::DataM(0, 0x73, 78), Said::Fetch(0)]),
        ],
        last: 0x73,
    },
    Run {
        name: "the owner gives the line up, asked or not",
        rows: &[
            (Told::GetM(0), &[Said::DataM(0, 0x73, 74)]),
            (Told::GetS(3), &[Said::Fetch(0)]),
            (Told::Fetched(1, 9), &[]), // not the owner
            (Told::Fetched(0, 7), &[Said::DataS(3, 7, 74)]),
            (Told::GetM(3), &[Said::Inv(0)]),
            (Told::Ack(0), &[Said::DataM(3, 7, 74)]),
            (Told::GetM(1), &[Said::FetchInv(3)]),
            (Told::Fetched(3, 8), &[Said::DataM(1, 8, 70)]),
            (Told::GetS(0), &[Said::Fetch(1)]),
            (Told::Put(1, 5), &[Said::DataS(0, 5, 78)]),
            (Told::GetM(0), &[Said::DataM(0, 5, 74)]),
            (Told::GetM(2), &[Said::FetchInv(0)]),
            (Told::Put(0, 6), &[Said::DataM(2, 6, 78)]),
            (Told::Put(2, 4), &[]),
            (Told::GetS(4), &[Said::DataS(4, 4, 74)]),
        ],
        last: 4,
    },
    Run {
        name: "requests wait in order, up to a writer that has to wait again",
        rows: &[
            (Told::GetM(0), &[Said::DataM(0, 0x73, 74)]),
            (Told::GetS(1), &[Said::Fetch(0)]),
            (Told::GetS(2), &[]),
            (Told::GetM(3), &[]),
            (Told::GetS(0), &[]),
            (
                Told::Fetched(0, 7),
                &[
                    Said::DataS(1, 7, 78),
                    Said::DataS(2, 7, 70),
                    Said::Inv(0),
                    Said::Inv(1),
                    Said::Inv(2),
                ],
            ),
            (Told::Ack(1), &[]),
        ],
        last: 7,
    },
    Run {
        name: "answers off the table change nothing",
        rows: &[
            (Told::Ack(1), &[]), // Uncached
            (Told::Fetched(1, 9), &[]),
            (Told::Put(1, 9), &[]),
            (Told::GetS(1), &[Said::DataS(1, 0x73, 70)]),
            (Told::Ack(1), &[]), // Shared
            (Told::Fetched(1, 9), &[]),
            (Told::Put(1, 9), &[]),
            (Told::GetM(1), &[Said::DataM(1, 0x73, 70)]),
            (Told::Ack(1), &[]), // Modified
            (Told::Fetched(1, 9), &[]),
            (Told::Put(2, 9), &[]),
            (Told::GetS(2), &[Said::Fetch(1)]),
            (Told::Ack(1), &[]), // BusyFetch
            (Told::Put(2, 9), &[]),
            (Told::Put(1, 3), &[Said::DataS(2, 3, 74)]),
            (Told::GetM(0), &[Said::Inv(2)]),
            (Told::Put(2, 9), &[]), // BusyInv
            (Told::Fetched(2, 9), &[]),
            (Told::Ack(2), &[Said::DataM(0, 3, 78)]),
        ],
        last: 3,
    },
];

/// The slice of tile 3 of 4, before the program runs.
fn slice(alloc: Global) -> Option<Dir>
    ensures tile { IfSome result (λ dir. dir.tile ≡ 3) }
    ensures tiles { IfSome result (λ dir. dir.tiles ≡ 4) }
{
    let image = read_image(alloc, &FILE).ok()?;
    let world = World::new(image, Config::defaults());
    Dir::new(alloc, &world, 3).ok()
}

/// What a message says of the line.
fn in_short(to: NodeId, msg: &Msg) -> Said {
    match msg {
        Msg::Inv { .. } => Said::Inv(to),
        Msg::Fetch { .. } => Said::Fetch(to),
        Msg::FetchInv { .. } => Said::FetchInv(to),
        Msg::DataS { content, delay, .. } => Said::DataS(to, content.bytes[0], *delay),
        Msg::DataM { content, delay, .. } => Said::DataM(to, content.bytes[0], *delay),
        _ => Said::Other,
    }
}

/// Tells the home of the line.
fn tell(alloc: Global, dir: &mut Dir, told: Told, out: &mut Out) -> Result<(), NoMemory>
    requires tile { dir.old.tile ≡ 3 }
    requires tiles { dir.old.tiles ≡ 4 }
    ensures tile { dir.new.tile ≡ 3 }
    ensures tiles { dir.new.tiles ≡ 4 }
{
    let config = Config::defaults();
    match told {
        Told::GetS(from) if from <= 4 => dir.request(alloc, &config, from, LINE, false, out),
        Told::GetM(from) if from <= 4 => dir.request(alloc, &config, from, LINE, true, out),
        Told::GetS(_) | Told::GetM(_) => Ok(()),
        Told::Ack(from) => dir.ack(&config, from, LINE, out),
        Told::Fetched(from, byte) => { dir.fetched(&config, from, LINE, &filled(byte), out) }
        Told::Put(from, byte) => dir.put(&config, from, LINE, &filled(byte), out),
    }
}

/// A line of this byte.
fn filled(byte: u8) -> LineData {
    LineData { bytes: [byte; 64] }
}

/// Whether the home sends what is said.
fn sends(alloc: Global, dir: &mut Dir, told: Told, said: &[Said]) -> Result<bool, NoMemory>
    requires tile { dir.old.tile ≡ 3 }
    requires tiles { dir.old.tiles ≡ 4 }
    ensures tile { dir.new.tile ≡ 3 }
    ensures tiles { dir.new.tiles ≡ 4 }
{
    let mut out: Out = Vec::new(alloc);
    tell(alloc, dir, told, &mut out)?;
    let all = all_in_short(alloc, &out)?;
    Ok(all.as_slice() == said)
}

/// What messages say of the line.
fn all_in_short(alloc: Global, out: &Out) -> Result<Vec<Said>, NoMemory> {
    let mut all = Vec::new(alloc);
    for (to, msg) in out {
        all.push(in_short(*to, msg))?;
    }
    Ok(all)
}

/// Whether the home sends what a run says, and has its last byte.
fn goes_as(alloc: Global, dir: &mut Dir, run: &Run) -> Result<bool, NoMemory>
    requires tile { dir.old.tile ≡ 3 }
    requires tiles { dir.old.tiles ≡ 4 }
{
    let mut is_right = true;
    for &(told, said) in run.rows {
        is_right = is_right && sends(alloc, dir, told, said)?;
    }
    Ok(is_right && dir.memory(LINE).bytes[0] == run.last)
}

/// Whether a new home goes as a run says.
fn starts_as(alloc: Global, run: &Run) -> Option<bool> {
    let mut dir = slice(alloc)?;
    goes_as(alloc, &mut dir, run).ok()
}

#[test]
fn homes_follow_the_table(rt: HostRuntime) {
    for run in &RUNS {
        let is_right = starts_as(rt.alloc(), run).unwrap_or(false);
        assert!(rt; is_right, "{}", run.name);
    }
}
