//! Laws of the definitions. These functions do nothing: only their contracts matter.
ghost use Rattle.kt_eval.specs.views.Growing.{StaysOneDeeper};
ghost use Rattle.kt_eval.specs.macros.Macros.{Macros};
ghost use Rattle.kt_graph.specs.nodes.Node.{Node};
ghost use Rattle.kt_recipe.specs.Shell.{shell_of};

/// A command that isn't too deep (E08) with a given number of levels is the same with one more.
pub fn one_deeper()
    ensures { (table : Macros) (node : Node) → StaysOneDeeper (λ limit. shell_of table limit node) }
{}
