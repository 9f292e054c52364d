//! Laws of rows and of totals.

ghost use Rattle.dump_writer.specs.History.{RowsAreHistory, RowsAreLines, RowsHaveFields};
ghost use Rattle.dump_writer.specs.Totals.{StandingCounts};

/// The rows of a cycle have its lines, those of a run the lines of the run, and each is of a field that there is.
pub fn rows_laws()
    ensures lines { RowsAreLines }
    ensures history { RowsAreHistory }
    ensures fields { RowsHaveFields }
{}

/// The totals of a mesh state that stands for a state with a mesh of its problem can be added up, where together they
/// are below 2^62.
pub fn counting_law()
    ensures { StandingCounts }
{}
