//! Laws of the control server: in which order limits go out, and what becomes of it after the end.

ghost use Rattle.control_server.specs.Laws.{LimitsGoOutInOrder, EndStays};

/// A law: the limits of the next epoch go out in ascending order of the active threads.
pub fn limits_go_out_in_order()
    ensures { LimitsGoOutInOrder }
{}

/// A law: once the program has ended nothing is served, and no message changes the control server.
pub fn end_stays()
    ensures { EndStays }
{}
