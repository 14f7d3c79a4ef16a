//! Laws of the definitions. These functions do nothing: their contracts are what counts.
ghost use Rattle.kt_text_laws.specs.Condensing.{CondensingLaw};
ghost use Rattle.kt_text_laws.specs.Rows.{RowsOfFunctions, RowsOfLines};
ghost use Rattle.kt_text_laws.specs.Sorted.{SortLaw};

/// Worked values of words, patterns and lines.
pub fn rows_of_lines()
    ensures { RowsOfLines }
{}

/// Worked values of the text functions.
pub fn rows_of_functions()
    ensures { RowsOfFunctions }
{}

/// What `sort` gives rises by bytes and has exactly the words of its text; no other list does.
pub fn law_of_sort()
    ensures { SortLaw }
{}

/// At each cut of a text, a maximal run of blanks and continuations with a continuation in it is one
/// space, and all else stays: so there is one way to condense. The condensed text of a line, each
/// newline of which is continued, has no newline; the text of each logical line is such a line.
pub fn law_of_condensing()
    ensures { CondensingLaw }
{}
