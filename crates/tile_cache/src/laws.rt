//! The laws of the cache: what it answers of a line, and how each change shows at each line.

ghost use Rattle.tile_cache.specs.Change.{EmptyHasSize, EmptyIsCache, ChangesKeepSize, ChangesKeepCache};
ghost use Rattle.tile_cache.specs.Copy.{HeldShows, AbsentShows, EmptyShows, FrontShows, DropShows, TouchHides, WriteShows, DowngradeShows, VictimIsAnother, VictimIsHeld};

/// A law: what a cache answers of a line tells its copy of it.
pub fn answers_tell()
    ensures held { HeldShows }
    ensures not_held { AbsentShows }
{}

/// A law: how each change of a cache shows at each line.
pub fn changes_show()
    ensures empty { EmptyShows }
    ensures front { FrontShows }
    ensures dropped { DropShows }
    ensures touched { TouchHides }
    ensures written { WriteShows }
    ensures downgraded { DowngradeShows }
{}

/// A law: a victim is another line, which the cache has as it says.
pub fn victims_are_held()
    ensures another { VictimIsAnother }
    ensures held { VictimIsHeld }
{}

/// A law: each change keeps how many sets there are and how many lines each may have, and that a set has no more
/// lines than that, only lines of its own, and each at most once.
pub fn changes_keep()
    ensures empty_size { EmptyHasSize }
    ensures empty_cache { EmptyIsCache }
    ensures size { ChangesKeepSize }
    ensures cache { ChangesKeepCache }
{}
