//! Laws of the definitions. These functions do nothing: only their contracts matter.
ghost use Rattle.std.specs.Prelude.{Bool, List};
ghost use Rattle.kt_text.specs.Words.{Text};
ghost use Rattle.kt_syntax.specs.Blocks.{Items};
ghost use Rattle.kt_eval.specs.declared.expanding.function.Function.{Function};
ghost use Rattle.kt_eval.specs.declared.reading.page.Source.{Source};
ghost use Rattle.kt_eval.specs.expanding.Expansion.{apply, expanded};
ghost use Rattle.kt_eval.specs.files.Files.{Store};
ghost use Rattle.kt_eval.specs.views.Growing.{StaysOneDeeper};
ghost use Rattle.kt_eval.specs.expanding.Levels.{evaluator};
ghost use Rattle.kt_eval.specs.reading.Reading.{Page, read_first, read_items, read_text};

/// A result that isn't too deep (E08) with a given number of levels is the same with one more, whatever the state
/// before it.
pub fn one_deeper()
    ensures expanding { (reads : Bool) (store : Store) (text : Text)
        → StaysOneDeeper (λ levels. expanded (evaluator reads store levels) text) }
    ensures applying { (reads : Bool) (store : Store) (function : Function) (arguments : List Text)
        → StaysOneDeeper (λ levels. apply (evaluator reads store levels) function arguments) }
    ensures reading { (reads : Bool) (store : Store) (names : List Text)
        → StaysOneDeeper (λ levels. read_first store (evaluator reads store levels) names) }
    ensures tree { (reads : Bool) (store : Store) (sheet : Page) (items : Items)
        → StaysOneDeeper (λ levels. read_items (evaluator reads store levels) sheet items) }
    ensures text { (reads : Bool) (store : Store) (source : Source) (text : Text)
        → StaysOneDeeper (λ levels. read_text (evaluator reads store levels) source text) }
{}
