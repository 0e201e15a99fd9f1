//! Who holds a line, as it is read of the machine that the program keeps.
ghost use Rattle.std.specs.Prelude.{◌≡◌, ◌≤◌, ◌<◌, ◌+◌, ◌^◌};
ghost use Rattle.coherence_laws.specs.Holders.{named_tiles, writer_below, readers_below, WriterIsAlone, writer_with, readers_with};

use node_machine::Core;
use sim_base::{Line, NodeId};
use tile_cache::Hold;

/// Who holds a line.
#[derive(Clone, Copy, Debug, PartialEq, Eq)]
pub struct Held {
    /// The least tile that has it to write, if one has.
    pub writer: Option<NodeId>,
    /// How many tiles have it to read.
    pub readers: u32,
}

/// Who holds a line of memory. Of a machine that shows a state of a run, a tile that has the line to write is the only one
/// that holds it. A tile's number is a byte, so only 256 tiles can be named; a machine of checked settings has at most 64.
pub fn holders(core: &Core, line: Line) -> Held
    ensures writer { result.writer ≡ writer_below core.now line (named_tiles core.now) }
    ensures readers { result.readers ≡ readers_below core.now line (named_tiles core.now) }
    ensures alone { WriterIsAlone core.now line result.writer result.readers }
{
    let mut found = Held {
        writer: None,
        readers: 0,
    };
    for tile in 0..core.tiles().min(256) {
        found = with_hold(&found, tile as NodeId, core.hold(tile as NodeId, line));
    }
    found
}

/// Those who hold a line and one more tile, as it holds the line.
fn with_hold(found: &Held, tile: NodeId, hold: Option<Hold>) -> Held
    requires { found.now.readers < 256 }
    ensures writer { result.writer ≡ writer_with found.now.writer tile hold }
    ensures readers { result.readers ≡ readers_with found.now.readers hold }
{
    let Held { writer, readers } = *found;
    match hold {
        Some(Hold::M) => Held {
            writer: writer.or(Some(tile)),
            readers,
        },
        Some(Hold::S) => Held {
            writer,
            readers: readers + 1,
        },
        None => Held { writer, readers },
    }
}
