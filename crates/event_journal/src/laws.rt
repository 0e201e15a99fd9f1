//! The laws of runs over any machine: how they join and split, and how many events a node makes.

ghost use Rattle.event_journal.specs.Laws.{StatesJoin, RunsJoin, RunsSplit, RunsHavePrefixes, CountsEvents, RunsStayWithin};

/// A law: the state after two lists of events is the state after the second, from the state after the first.
pub fn states_join<N, M>()
    ensures { StatesJoin N M }
{}

/// A law: a run, and a run from the state after it, are a run.
pub fn runs_join<N, M>()
    ensures { RunsJoin N M }
{}

/// A law: a run of two lists of events is a run of the first, and of the second from the state after the first.
pub fn runs_split<N, M>()
    ensures { RunsSplit N M }
{}

/// A law: the first events of a run are a run.
pub fn runs_have_prefixes<N, M>()
    ensures { RunsHavePrefixes N M }
{}

/// A law: after a run from a start each node has made as many events as the run has of it.
pub fn counts_events<N, M>()
    ensures { CountsEvents N M }
{}

/// A law: in a run from a start no node makes more events than it may, only nodes of the machine make events, and there
/// are at most as many as all of them may make.
pub fn runs_stay_within<N, M>()
    ensures { RunsStayWithin N M }
{}
