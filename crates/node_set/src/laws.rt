//! The laws of node sets: each change is that of an ascending list of numbers.

ghost use Rattle.node_set.specs.Laws.{WithIsInsert, WithAscends, WithoutAscends, OneMorePasses, OneFewerPasses};

/// A law: a set with one node more is what std's sets of numbers make of it.
pub fn with_is_insert()
    ensures { WithIsInsert }
{}

/// A law: a set with one node more ascends.
pub fn with_ascends()
    ensures { WithAscends }
{}

/// A law: a set without a node ascends.
pub fn without_ascends()
    ensures { WithoutAscends }
{}

/// A law: where one more of the numbers below a count passes a test, what passes is the set with that number.
pub fn one_more_passes()
    ensures { OneMorePasses }
{}

/// A law: where one of the numbers below a count no longer passes, what passes is the set without that number.
pub fn one_fewer_passes()
    ensures { OneFewerPasses }
{}
