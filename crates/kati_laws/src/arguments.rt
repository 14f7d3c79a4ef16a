//! Laws of the definitions. These functions do nothing: their contracts are what counts.
ghost use Rattle.kati_laws.specs.ArgumentRows.{RowsOfFaults, RowsOfUsage, RowsOfWords};

/// Worked command lines.
pub fn rows_of_lines()
    ensures { RowsOfWords }
{}

/// Worked command lines that ask for nothing.
pub fn rows_of_faults()
    ensures { RowsOfFaults }
{}

/// Worked command lines to which only usage may be returned.
pub fn rows_of_usage()
    ensures { RowsOfUsage }
{}
