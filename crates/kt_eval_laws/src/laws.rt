//! Laws of the definitions. These functions do nothing: only their contracts matter.
ghost use Rattle.std.specs.Prelude.{ℕ, Bool, List};
ghost use Rattle.kt_text.specs.Words.{Text};
ghost use Rattle.kt_syntax.specs.Blocks.{Items};
ghost use Rattle.kt_eval.specs.declared.expanding.function.Function.{Function};
ghost use Rattle.kt_eval.specs.declared.reading.page.Source.{Source};
ghost use Rattle.kt_eval_laws.specs.Arguments.{ArgumentLaw};
ghost use Rattle.kt_eval_laws.specs.BarePlaces.{BarePlaceLaw};
ghost use Rattle.kt_eval_laws.specs.Doubling.{DoublingLaw};
ghost use Rattle.kt_eval.specs.expanding.Expansion.{apply, expanded};
ghost use Rattle.kt_eval_laws.specs.Agreement.{AddedGrow, AgreeingAreSteady, AgreeingHolds, HoldingAgrees, MemoryAgrees, SteadyAgree};
ghost use Rattle.kt_eval.specs.files.Files.{Store};
ghost use Rattle.kt_eval.specs.views.Growing.{TakesNothingBack};
ghost use Rattle.kt_eval.specs.expanding.Levels.{evaluator};
ghost use Rattle.kt_eval.specs.reading.Reading.{Page, read_first, read_items, read_text};
ghost use Rattle.kt_eval_laws.specs.Rows.{RowsOfAssignments, RowsOfCalls, RowsOfReading, RowsOfReferences};

/// Worked values of references.
pub fn rows_of_references()
    ensures { RowsOfReferences }
{}

/// Worked values of calls of functions.
pub fn rows_of_calls()
    ensures { RowsOfCalls }
{}

/// Worked values of assignments and conditions.
pub fn rows_of_assignments()
    ensures { RowsOfAssignments }
{}

/// Worked readings of makefiles.
pub fn rows_of_reading()
    ensures { RowsOfReading }
{}

/// Messages and the names asked for are only added to: by expanding, by applying a function, and by reading the first
/// file that exists, the tree of a text's lines, or a text.
pub fn nothing_is_taken_back()
    ensures expanding { (reads : Bool) (store : Store) (levels : ℕ) (text : Text)
        → TakesNothingBack (expanded (evaluator reads store levels) text) }
    ensures applying { (reads : Bool) (store : Store) (levels : ℕ) (function : Function) (arguments : List Text)
        → TakesNothingBack (apply (evaluator reads store levels) function arguments) }
    ensures reading { (reads : Bool) (store : Store) (levels : ℕ) (names : List Text)
        → TakesNothingBack (read_first store (evaluator reads store levels) names) }
    ensures tree { (reads : Bool) (store : Store) (levels : ℕ) (sheet : Page) (items : Items)
        → TakesNothingBack (read_items (evaluator reads store levels) sheet items) }
    ensures text { (reads : Bool) (store : Store) (levels : ℕ) (source : Source) (text : Text)
        → TakesNothingBack (read_text (evaluator reads store levels) source text) }
{}

/// Each text is cut into the arguments of a call in exactly one way: joined with commas they are the text, and those of
/// a balanced text are balanced.
pub fn law_of_arguments()
    ensures { ArgumentLaw }
{}

/// A text with each dollar doubled, as `:::=` stores it, expands to the text.
pub fn doubled_texts_expand_to_themselves()
    ensures { DoublingLaw }
{}

/// The comma of `ifeq (a,b)`, and its closing parenthesis, are the first ones before which each opened parenthesis is
/// closed; if there is none, none is found.
pub fn law_of_bare_places()
    ensures { BarePlaceLaw }
{}

/// A store agrees with answers exactly if it holds what was answered, each time.
pub fn agreement_is_of_each()
    ensures agreeing { AgreeingHolds }
    ensures holding { HoldingAgrees }
{}

/// Answers that are added to grow: a store that agrees with the later ones agrees with the earlier ones.
pub fn added_answers_grow()
    ensures { AddedGrow }
{}

/// Where no name was answered in two ways there is a store that agrees, and only there.
pub fn steady_answers_have_a_store()
    ensures some { SteadyAgree }
    ensures only { AgreeingAreSteady }
{}

/// What files in memory answered agrees with what they hold: so all that is said for each store that agrees with the
/// answers holds for theirs.
pub fn files_in_memory_agree()
    ensures { MemoryAgrees }
{}
