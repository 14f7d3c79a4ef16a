//! Laws of the definitions. These functions do nothing: only their contracts matter.
ghost use Rattle.std.specs.Prelude.{List};
ghost use Rattle.kt_text.specs.Words.{Text};
ghost use Rattle.kt_rules.specs.Entry.{Entry};
ghost use Rattle.kt_graph.specs.views.faults.Faults.{ReportsFirst};
ghost use Rattle.kt_graph.specs.views.nodes.Groups.{AreGroups};
ghost use Rattle.kt_graph.specs.nodes.Groups.{groups_of};
ghost use Rattle.kt_graph.specs.nodes.Node.{Node};
ghost use Rattle.kt_graph.specs.Reach.{IsGraph};
ghost use Rattle.kt_graph_laws.specs.Resolution.{IsResolution};
ghost use Rattle.kt_graph_laws.specs.Rows.{RowsOfChoices, RowsOfGoals, RowsOfKnown, RowsOfNodes, RowsOfPaths, RowsOfQuestions};
ghost use Rattle.kt_graph.specs.declared.faults.fault.GraphFault.TheVariants.{Memory};

/// Worked known names.
pub fn rows_of_known()
    ensures { RowsOfKnown }
{}

/// Worked choices.
pub fn rows_of_choices()
    ensures { RowsOfChoices }
{}

/// Worked questions.
pub fn rows_of_questions()
    ensures { RowsOfQuestions }
{}

/// Worked nodes.
pub fn rows_of_nodes()
    ensures { RowsOfNodes }
{}

/// Worked goals.
pub fn rows_of_goals()
    ensures { RowsOfGoals }
{}

/// Worked names of files.
pub fn rows_of_paths()
    ensures { RowsOfPaths }
{}

/// Running out of memory is always allowed, whatever is wrong.
pub fn memory_is_excused()
    ensures { (rules : List Entry) (known goals : List Text) → ReportsFirst rules known goals Memory }
{}

/// The groups of a graph are the names that one making makes: each made node is in exactly one group.
pub fn groups_are_makings()
    ensures { (rules : List Entry) (known goals : List Text) (nodes : List Node)
        → IsGraph rules known goals nodes → AreGroups rules known goals nodes (groups_of nodes) }
{}

/// The components of a file's canonical spelling are what remains of a name's components after all that may be removed
/// are, in whatever order.
pub fn canon_is_resolution()
    ensures { (name : Text) → IsResolution name }
{}
