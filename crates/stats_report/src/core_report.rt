//! The text of a run from the machine at its end.

ghost use Rattle.std.specs.Prelude.{◌≡◌, ◌≤◌, IfOk, map, slice_get};
ghost use Rattle.std.specs.List.{range_with_len};
ghost use Rattle.node_machine.specs.Core.{counts_at};
ghost use Rattle.stats_report.specs.Report.{core_text};

use crate::lines::run_text;
use node_machine::Core;
use sim_base::{End, NoMemory, NodeId};
use std::alloc::Global;
use tile_node::TileCounts;

/// The whole text of a run, in bytes: the program's output, a newline where its last line lacks one, and the report: how
/// it ended, how many events were made, a line for each tile with its clock (in cycles) and its counts, and the sums of
/// the counts, each of which stops at 2^64 - 1. The layout is this simulator's own. A tile's number is a byte, so there are
/// at most 256 tiles; a machine of checked settings has at most 64.
pub fn report(alloc: Global, core: &Core, end: &End) -> Result<Vec<u8>, NoMemory>
    requires { core.now.tiles ≤ 256 }
    ensures { IfOk result (λ text. text.items ≡ core_text core.now end.now) }
{
    let counts = tile_counts(alloc, core)?;
    run_text(alloc, core.output(), end, core.count(), counts.as_slice())
}

/// What each tile has counted, from tile 0 on.
fn tile_counts(alloc: Global, core: &Core) -> Result<Vec<TileCounts>, NoMemory>
    requires { core.now.tiles ≤ 256 }
    ensures { IfOk result (λ counts. counts.items ≡ map (λ tile. counts_at (slice_get core.now.nodes tile)) (range_with_len 0 core.now.tiles)) }
{
    Ok(
        (0..core.tiles())
            .map(|tile| core.counts(tile as NodeId))
            .collect(alloc)?,
    )
}
