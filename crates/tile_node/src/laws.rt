//! The laws of tiles: how each event shows at each line, and what a tile tells a line's home.

ghost use Rattle.tile_node.specs.OneLineLaws.{StepShows, DeliverShows, DownsHappen, OthersLeave, StepMayHappen, DeliverMayHappen, WantsOne, StepStaysTile, DeliverStaysTile, TilesStartEmpty};
ghost use Rattle.tile_node.specs.OneLineLaws.{ToldToHomes, ToldToReceivers, StepLeavesHomes, DeliverLeavesHomes, HomesHear, HomesSpeakOfLines};

/// A law: a step of a tile that can step shows at each line as what happens there: what its cache has of the line
/// afterwards, what it tells of it, and what it waits for of it.
pub fn steps_show_at_lines()
    ensures { StepShows }
{}

/// A law: so does each delivery.
pub fn deliveries_show_at_lines()
    ensures { DeliverShows }
{}

/// A law: what a home says of a line happens there, by what the tile waits for of it. Every other message leaves the line
/// alone, or evicts it.
pub fn words_of_homes_happen()
    ensures here { DownsHappen }
    ensures elsewhere { OthersLeave }
{}

/// A law: what may happen at a line, by the copy there and what is waited for. An access is done only on a copy that is
/// there, and on one to read it changes nothing; a line is asked for only where it isn't held so; it comes only where it
/// is waited for; and a tile waits for one line at most.
pub fn happenings_are_right()
    ensures step { StepMayHappen }
    ensures delivery { DeliverMayHappen }
    ensures one { WantsOne }
{}

/// A law: a tile starts with a cache that has no line, and each event leaves it a cache, and the tile its number.
pub fn tiles_stay_tiles()
    ensures start { TilesStartEmpty }
    ensures step { StepStaysTile }
    ensures delivery { DeliverStaysTile }
{}

/// A law: of a line that is asked for or given up, the line's home is told; of one that is dropped or fetched, the node
/// that said so.
pub fn lines_are_told_to_homes()
    ensures step { ToldToHomes }
    ensures delivery { ToldToReceivers }
{}

/// A law: what a node tells a home is the home's alone, which speaks of that line to nodes that have it. A step and every
/// other message leave the tile's lines as a home alone, and nothing that is sent then says anything from a home.
pub fn homes_stand_apart()
    ensures step { StepLeavesHomes }
    ensures delivery { DeliverLeavesHomes }
    ensures hears { HomesHear }
    ensures speaks { HomesSpeakOfLines }
{}
