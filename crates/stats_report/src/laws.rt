//! The law that a machine's text is that of each state that it shows.

ghost use Rattle.stats_report.specs.Report.{TextIsOfState};

/// A law: the text of a machine is that of each state that it shows.
pub fn text_is_of_state()
    ensures { TextIsOfState }
{
    node_machine::shown_is_read();
}
