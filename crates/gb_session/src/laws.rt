//! Laws of lines and of their reports.

ghost use Rattle.gb_session.specs.Reporting.{ReportsByLine};
ghost use Rattle.gb_session.specs.Sessions.{LinesAreAsInAScript};

/// The report of a script is that of its lines one after the other, up to the first bad one.
pub fn a_report_is_that_of_its_lines()
    ensures { ReportsByLine }
{}

/// Bytes without an LF are the same line for a session as in a script.
pub fn a_line_is_as_in_a_script()
    ensures { LinesAreAsInAScript }
{}
