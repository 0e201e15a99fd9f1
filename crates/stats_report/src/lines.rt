//! The lines of the report: end, events, a line for each tile, and the sums.

ghost use Rattle.std.specs.Prelude.{◌≡◌, ◌++◌, IfOk, codes, decimal, string_bytes};
ghost use Rattle.stats_report.specs.Text.{line, ends_amid_line, whole_lines, run_text, end_text, trap_text, tile_text, tile_lines, total_text};

use sim_base::{Cause, End, NoMemory};
use std::alloc::Global;
use tile_node::TileCounts;

/// The text of a run, by the program's output, how it ended, how many events were made, and what each tile has counted.
pub(crate) fn run_text(
    alloc: Global,
    output: &[u8],
    end: &End,
    events: u64,
    counts: &[TileCounts],
) -> Result<Vec<u8>, NoMemory>
    ensures { IfOk result (λ text. text.items ≡ run_text output.now end.now events counts.now) }
{
    let mut text = whole_lines(alloc, output)?;
    text.extend_from_slice(b"== tilesim ==\n")?;
    text.extend_from_slice(end_line(alloc, end)?.as_bytes())?;
    text.extend_from_slice(events_line(alloc, events)?.as_bytes())?;
    text.extend_from_slice(tile_lines(alloc, counts)?.as_bytes())?;
    text.extend_from_slice(total_line(alloc, counts)?.as_bytes())?;
    Ok(text)
}

/// An output, with the newline that its last line lacks.
fn whole_lines(alloc: Global, output: &[u8]) -> Result<Vec<u8>, NoMemory>
    ensures { IfOk result (λ text. text.items ≡ whole_lines output.now) }
{
    let mut text = output.to_vec(alloc)?;
    if ends_amid_line(output) {
        text.push(b'\n')?;
    }
    Ok(text)
}

/// Whether an output isn't empty and doesn't end in a newline.
fn ends_amid_line(output: &[u8]) -> bool
    ensures { result ≡ ends_amid_line output.now }
{
    match output {
        [] => false,
        [.., last] => *last != b'\n',
    }
}

/// How a run ended, as a line.
fn end_line(alloc: Global, end: &End) -> Result<String, NoMemory>
    ensures { IfOk result (λ text. string_bytes text ≡ line (end_text end.now)) }
{
    match *end {
        End::Exit { code } => Ok(format!(in alloc; "end: exit {code}\n")?),
        End::Trap { thread, cause, pc } => trap_line(alloc, thread, cause, pc),
        End::Deadlock => Ok(String::from_str(alloc, "end: deadlock\n")?),
        End::Budget => Ok(String::from_str(alloc, "end: budget\n")?),
    }
}

/// That a run ended by a trap, as a line.
#[tactic(auto, using(crate::proofs::HexLemmas::hex_padded))]
fn trap_line(alloc: Global, thread: u32, cause: Cause, pc: u64) -> Result<String, NoMemory>
    ensures { IfOk result (λ text. string_bytes text ≡ line (codes "end: " ++ trap_text thread cause pc)) }
{
    Ok(format!(in alloc; "end: trap thread {thread} {cause} at 0x{pc:016x}\n")?)
}

/// How many events were made, as a line.
fn events_line(alloc: Global, events: u64) -> Result<String, NoMemory>
    ensures { IfOk result (λ text. string_bytes text ≡ line (codes "events: " ++ decimal events)) }
{
    Ok(format!(in alloc; "events: {events}\n")?)
}

/// A line for each tile, from tile 0 on.
fn tile_lines(alloc: Global, counts: &[TileCounts]) -> Result<String, NoMemory>
    ensures { IfOk result (λ text. string_bytes text ≡ tile_lines 0 counts.now) }
{
    let mut text = String::new(alloc);
    for (tile, counted) in counts.iter().enumerate() {
        text.push_str(tile_line(alloc, tile, counted)?.as_str())?;
    }
    Ok(text)
}

/// What a tile has counted, as a line.
fn tile_line(alloc: Global, tile: usize, counts: &TileCounts) -> Result<String, NoMemory>
    ensures { IfOk result (λ text. string_bytes text ≡ line (tile_text tile counts.now)) }
{
    let TileCounts {
        clock,
        instr,
        hits,
        misses,
    } = *counts;
    Ok(format!(in alloc; "tile {tile}: clock {clock} instr {instr} hits {hits} misses {misses}\n")?)
}

/// The sums over all tiles, as a line.
fn total_line(alloc: Global, counts: &[TileCounts]) -> Result<String, NoMemory>
    ensures { IfOk result (λ text. string_bytes text ≡ line (total_text counts.now)) }
{
    let mut instr: u64 = 0;
    let mut hits: u64 = 0;
    let mut misses: u64 = 0;
    for tile in counts {
        instr = instr.saturating_add(tile.instr);
        hits = hits.saturating_add(tile.hits);
        misses = misses.saturating_add(tile.misses);
    }
    Ok(format!(in alloc; "total: instr {instr} hits {hits} misses {misses}\n")?)
}
