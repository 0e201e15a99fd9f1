//! Laws: where each outcome comes, of the words and the files that they name. They speak of the verdicts of the clause
//! `answer` of `execute_alone`.
ghost use Rattle.sim_top.specs.Causes.{OneVerdict, UsageIsExact, ReadFaultHasCause, AbsentIsReadFault, BadConfigIsExact, BadImageIsExact, BadJournalIsExact, StuckIsExact, EndIsExact, WrittenIsExact, WriteFaultHasCause, Complete};

/// A law: where it is told what files hold and no reading fails, words come to one verdict: one outcome, with one journal, one
/// text and one list of files to write.
pub fn told_files_leave_one_verdict()
    ensures { OneVerdict }
{}

/// A law: `Usage` comes exactly where the words mean nothing.
pub fn usage_is_exact()
    ensures { UsageIsExact }
{}

/// A law: `ReadFault` comes only where a file that is read, what is read before it being accepted, had one more fault
/// of reading.
pub fn read_fault_has_cause()
    ensures { ReadFaultHasCause }
{}

/// A law: where it is told that a file that is read isn't there, what is read before it being accepted, `ReadFault`
/// comes.
pub fn absent_is_read_fault()
    ensures { AbsentIsReadFault }
{}

/// A law: of told files, without a fault of reading, `BadConfig` comes exactly where the settings are refused, with
/// that field.
pub fn bad_config_is_exact()
    ensures { BadConfigIsExact }
{}

/// A law: of told files, without a fault of reading, `BadImage` comes exactly where the settings are accepted and the
/// image is refused, with that fault.
pub fn bad_image_is_exact()
    ensures { BadImageIsExact }
{}

/// A law: of told files, without a fault of reading, `BadJournal` comes exactly where settings and image are accepted
/// and the journal's file is refused at that place, or that event is the first that isn't enabled, or all of that
/// number are and the run has no end.
pub fn bad_journal_is_exact()
    ensures { BadJournalIsExact }
{}

/// A law: of told files, without a fault of reading, `Stuck` comes exactly where the run that the seed draws comes to a
/// state without an end in which no event is enabled.
pub fn stuck_is_exact()
    ensures { StuckIsExact }
{}

/// A law: `Written` comes exactly where a workload's file is asked for.
pub fn written_is_exact()
    ensures { WrittenIsExact }
{}

/// A law: `WriteFault` comes only where the stream, or a name that the words give for writing, had one more fault.
pub fn write_fault_has_cause()
    ensures { WriteFaultHasCause }
{}

/// A law: of told files, without a fault of reading, `Done`, `Trap`, `Deadlock` and `Budget` come exactly where the
/// settings, the image and the journal to replay are accepted, and the state after the journal that is returned has
/// that end; the journal being the one that the seed draws, or the one of the journal's file.
pub fn end_is_exact()
    ensures { EndIsExact }
{}

/// A law: of told files, where nothing fails to be read, put or written, what is accepted is completed: a run by `Done`, `Trap`,
/// `Deadlock` or `Budget`, as the state after the journal that is returned says, or `Stuck`; a workload's file by `Written`; or
/// memory runs out.
pub fn accepted_is_completed()
    ensures { Complete }
{}
