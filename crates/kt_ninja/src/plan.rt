//! A build plan: statements with their outputs, commands and inputs, and the default targets.
ghost use Rattle.std.specs.Prelude.{◌≡◌, ◌↔◌, IsTrue};
ghost use Rattle.std.specs.Cmp.{partial_equiv_from_equiv};
ghost use Rattle.kt_ninja.specs.views.Plan.{same_made, same_plan, same_statement};
ghost use Rattle.kt_ninja.specs.inner.Equality.{made_laws, plan_laws, statement_laws};

use kt_list::{Sequence, Text};

/// The bytes of a path, without escapes.
pub type Path = Text;

/// How the outputs of a statement are made.
#[derive(Debug, Drop)]
pub enum Made {
    /// By this command line, in bytes without escapes.
    Command(Sequence<u8>),
    /// By nothing: the statement only names its inputs (Ninja manual, "The phony rule").
    Phony,
}

/// A build statement (Ninja manual, "Build statements", "Build outputs" and "Build dependencies").
#[derive(Debug, Drop)]
pub struct Statement {
    /// What one run of the command makes.
    pub outs: Sequence<Path>,
    pub made: Made,
    /// Explicit inputs, which `$in` names.
    pub inputs: Sequence<Path>,
    /// Implicit inputs, after `|`.
    pub implicit: Sequence<Path>,
    /// Order-only inputs, after `||`.
    pub order_only: Sequence<Path>,
}

/// What a Ninja file says: its build statements and its default targets, each in order.
#[derive(Debug, Drop)]
pub struct Plan {
    pub statements: Sequence<Statement>,
    /// Targets that Ninja builds when it is given none (Ninja manual, "Default target statements").
    pub defaults: Sequence<Path>,
}

impl PartialEq for Made {
    ghost eq = { same_made };

    ghost laws = { partial_equiv_from_equiv made_laws };

    #[tactic(auto, using(crate::specs::inner::Equality::made_decided))]
    fn eq(&self, other: &Made) -> bool
        ensures told { result ≡ same_made self.now other.now }
        ensures same { IsTrue result ↔ (self.now ≡ other.now) }
    {
        match (self, other) {
            (Made::Command(command), Made::Command(another)) => command == another,
            (Made::Phony, Made::Phony) => true,
            _ => false,
        }
    }
}

impl Eq for Made {
    ghost laws = { made_laws };
}

impl PartialEq for Statement {
    ghost eq = { same_statement };

    ghost laws = { partial_equiv_from_equiv statement_laws };

    fn eq(&self, other: &Statement) -> bool
        ensures told { result ≡ same_statement self.now other.now }
        ensures same { IsTrue result ↔ (self.now ≡ other.now) }
    {
        self.outs == other.outs
            && self.made == other.made
            && self.inputs == other.inputs
            && self.implicit == other.implicit
            && self.order_only == other.order_only
    }
}

impl Eq for Statement {
    ghost laws = { statement_laws };
}

impl PartialEq for Plan {
    ghost eq = { same_plan };

    ghost laws = { partial_equiv_from_equiv plan_laws };

    fn eq(&self, other: &Plan) -> bool
        ensures told { result ≡ same_plan self.now other.now }
        ensures same { IsTrue result ↔ (self.now ≡ other.now) }
    {
        self.statements == other.statements && self.defaults == other.defaults
    }
}

impl Eq for Plan {
    ghost laws = { plan_laws };
}
