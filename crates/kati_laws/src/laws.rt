//! Laws of the meaning. These functions do nothing: only their contracts matter.
ghost use Rattle.kati_laws.specs.Meaning.{NamesAreAsked};
ghost use Rattle.kati.specs.views.Plans.{PlansAreGraphs, PlansReadBack, PlansAreSound};
ghost use Rattle.kati_laws.specs.Names.{LinesTellNames};
ghost use Rattle.kati_laws.specs.Once.{HasAMeaning, HasOneMeaning};

/// A run has a meaning, whatever its arguments are and its files hold, so a law of meanings is never about nothing.
pub fn has_a_meaning()
    ensures { HasAMeaning }
{}

/// A run has only one meaning, so what a law says of a meaning of the run holds for this one.
pub fn one_meaning()
    ensures { HasOneMeaning }
{}

/// The text that is written for a plan is read, by Ninja's rules, as exactly that plan.
pub fn plans_read_back()
    ensures { PlansReadBack }
{}

/// A plan is the graph of what the goals need: each target that a rule makes and the goals reach is an output of
/// exactly one statement, which has the inputs, order-only inputs and command of its group. The only other statement is
/// that of `ALWAYS_BUILD`, exactly if one needs it. Statements are in byte order of their least outputs.
pub fn plans_are_graphs()
    ensures { PlansAreGraphs }
{}

/// A run asks for the names that the list and the makefile ask for, and for no others: the goals need no further file.
pub fn names_are_asked()
    ensures { NamesAreAsked }
{}

/// No plan has a name that depends on itself, two outputs that are one file, or a spelling of `ALWAYS_BUILD` elsewhere
/// than as the output of its own statement and among implicit inputs.
pub fn plans_are_sound()
    ensures { PlansAreSound }
{}

/// The lines of names without newlines identify the names: no other list of such names is written as the same text.
pub fn lines_tell_names()
    ensures { LinesTellNames }
{}
