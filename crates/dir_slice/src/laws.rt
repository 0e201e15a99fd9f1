//! The laws of lines at their homes: requests wait only in a transaction, and a message changes one line.

ghost use Rattle.dir_slice.specs.Laws.{FreshIsOrderly, KeepsOrderly, StaysOrderly, OneLineChanges, StartsAsTheImage};

/// A law: of a line of which nothing was heard no request waits, and no node is known.
pub fn fresh_is_orderly()
    ensures { FreshIsOrderly }
{}

/// A law: whatever a node tells a home, requests wait only while a transaction is under way, its set of nodes
/// ascends, so that no node stands twice in it, and a writer waits for some node, but not for itself, if that was
/// so before.
pub fn keeps_orderly()
    ensures { KeepsOrderly }
{}

/// A law: so it is with every home, whatever it was told since it was fresh.
pub fn stays_orderly()
    ensures { StaysOrderly }
{}

/// A law: a message about a line changes that line at its home, and no other.
pub fn one_line_changes()
    ensures { OneLineChanges }
{}

/// A law: before the program runs, each line has at its home what the image gives it, and 0 where no segment has a
/// byte of it.
pub fn starts_as_the_image()
    ensures { StartsAsTheImage }
{}
