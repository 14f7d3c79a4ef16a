//! Laws of the definitions. These functions do nothing: only their contracts matter.
ghost use Rattle.kt_rules_laws.specs.Book.{NumbersTellRules};
ghost use Rattle.kt_rules_laws.specs.BookRows.{RowsOfAdding, RowsOfAnswers, RowsOfPatternRules, RowsOfSuffixRules};
ghost use Rattle.kt_rules_laws.specs.Cuts.{CutsAtFirstColon, DropsDots};
ghost use Rattle.kt_rules_laws.specs.HeadWords.{OuterLaw, UnquotedLaw, WrittenWordsLaw};
ghost use Rattle.kt_rules_laws.specs.Rows.{RowsOfRuleLines, RowsOfNames, RowsOfRefusals};

/// Worked rule lines that are accepted.
pub fn rows_of_lines()
    ensures { RowsOfRuleLines }
{}

/// Worked rule lines that are refused.
pub fn rows_of_refusals()
    ensures { RowsOfRefusals }
{}

/// Worked names.
pub fn rows_of_names()
    ensures { RowsOfNames }
{}

/// Worked suffix rules.
pub fn rows_of_suffix_rules()
    ensures { RowsOfSuffixRules }
{}

/// Worked pattern rules.
pub fn rows_of_pattern_rules()
    ensures { RowsOfPatternRules }
{}

/// Worked additions to a book.
pub fn rows_of_adding()
    ensures { RowsOfAdding }
{}

/// Worked lookups in a book.
pub fn rows_of_answers()
    ensures { RowsOfAnswers }
{}

/// The colon that ends the targets of a rule line is the first without a backslash directly before it.
pub fn first_colon()
    ensures { CutsAtFirstColon }
{}

/// Each leading `./` of a name is removed with all slashes after it, and nothing else is.
pub fn leading_dots()
    ensures { DropsDots }
{}

/// A head consists of its words and the separators round them, and of no other words.
pub fn words_of_a_head()
    ensures { WrittenWordsLaw }
{}

/// Removing the outer separators of a text leaves what is between them; a quoted separator stays.
pub fn outer_separators()
    ensures { OuterLaw }
{}

/// Unquoting removes each backslash directly before a space or colon, and nothing else.
pub fn unquoting()
    ensures { UnquotedLaw }
{}

/// The rules at a target's numbers are its explicit rules, one by one.
pub fn numbers_of_explicit_rules()
    ensures { NumbersTellRules }
{}
