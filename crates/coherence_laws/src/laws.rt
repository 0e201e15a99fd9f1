//! Laws of lines over every run of the machine.
ghost use Rattle.coherence_laws.specs.Laws.{AccessesUseValues, AlwaysCoherent, AlwaysOneWriter, ValuesChange};
ghost use Rattle.coherence_laws.specs.Still.{NoneWaitsInSilence, StillLinesAreServed};

/// A law: in every state that a run reaches, each line has one writer or only readers.
pub fn one_writer_or_readers()
    ensures { AlwaysOneWriter }
{}

/// A law: in every state that a run reaches each line is coherent, with the value that the run gives it: one writer or only
/// readers; the value at one place, with an owner, on its way or in the home's memory; every copy with that value, and what
/// is on its way to readers; and all that is said of the line on its way to its home or from it.
pub fn lines_stay_coherent()
    ensures { AlwaysCoherent }
{}

/// A law: one more event makes of a line's value what its access of the line makes of it, if it has one: on the copy that is
/// there, or on the line that comes. So a line's value is what the image gives it, changed by the run's accesses in their
/// order, whatever messages carry: it is made so, by unfolding. And what an access works on, in an event that is enabled, is
/// the line's value.
pub fn values_change_by_accesses()
    ensures changes { ValuesChange }
    ensures uses { AccessesUseValues }
{}

/// A law: of a line of which nothing is on its way, to its home or from it, nobody waits. So where no message waits at all,
/// no tile misses a line, and the control server checks no word.
pub fn still_lines_are_served()
    ensures line { StillLinesAreServed }
    ensures machine { NoneWaitsInSilence }
{}
