//! Plans by places, wherever they are held.
ghost use Rattle.std.specs.Prelude.{◌≡◌, ◌<◌, List, Some, ℕ, length, option_map, slice_get};
ghost use Rattle.kt_ninja.specs.views.View.{made_at, names_listed, statement_names};
ghost use Rattle.kt_ninja.specs.Plan.{made_by};
ghost use Rattle.kt_ninja.specs.declared.plan.Plan.{Plan as PlanSeen};

use crate::plan::{Made, Path, Plan, Statement};

/// A list of names of a plan: one of those of a statement, which is told by its place, or the default targets.
#[derive(Debug, Clone, Copy, PartialEq, Eq)]
pub enum PlanNames {
    Outputs(usize),
    Inputs(usize),
    Implicit(usize),
    OrderOnly(usize),
    Defaults,
}

/// A list of names, by places.
pub trait NamesView<'a>: Drop {
    /// The names, in order.
    ghost names: { Self → List (List ℕ) };

    /// How many names there are.
    fn len(&self) -> usize
        ensures { result ≡ length (names self.now) };

    /// The name at a place.
    fn name(&self, place: usize) -> &'a [u8]
        requires { place < length (names self.now) }
        ensures { slice_get (names self.now) place ≡ Some result.now };
}

/// A plan as it is printed: by places, so that none need be built.
pub trait PlanView<'a> {
    /// What it hands out its lists of names as.
    type Names: NamesView<'a>;

    /// The plan that it shows.
    ghost plan: { Self → PlanSeen };

    /// How many statements there are.
    fn statement_count(&'a self) -> usize
        ensures { result ≡ length (plan self.now).statements };

    /// The command of a statement, if it is there and has one.
    fn command(&'a self, statement: usize) -> Option<&'a [u8]>
        ensures { made_by (option_map (λ command. command.now) result)
            ≡ made_at (slice_get (plan self.now).statements statement) };

    /// The names of a list.
    fn names(&'a self, list: PlanNames) -> Self::Names
        ensures { Self.Names.names result ≡ names_listed (plan self.now) list };
}

fn outs_in(statement: Option<&Statement>) -> &[Path]
    ensures { result.now ≡ statement_names (λ s. s.outs) (option_map (λ s. s.now) statement.entry) }
{
    match statement {
        Some(statement) => statement.outs.as_slice(),
        None => &[],
    }
}

fn inputs_in(statement: Option<&Statement>) -> &[Path]
    ensures { result.now ≡ statement_names (λ s. s.inputs) (option_map (λ s. s.now) statement.entry) }
{
    match statement {
        Some(statement) => statement.inputs.as_slice(),
        None => &[],
    }
}

fn implicit_in(statement: Option<&Statement>) -> &[Path]
    ensures { result.now ≡ statement_names (λ s. s.implicit) (option_map (λ s. s.now) statement.entry) }
{
    match statement {
        Some(statement) => statement.implicit.as_slice(),
        None => &[],
    }
}

fn order_only_in(statement: Option<&Statement>) -> &[Path]
    ensures { result.now ≡ statement_names (λ s. s.order_only) (option_map (λ s. s.now) statement.entry) }
{
    match statement {
        Some(statement) => statement.order_only.as_slice(),
        None => &[],
    }
}

fn names_in(plan: &Plan, list: PlanNames) -> &[Path]
    ensures { result.now ≡ names_listed plan.now list }
{
    match list {
        PlanNames::Outputs(place) => outs_in(plan.statements.as_slice().get(place)),
        PlanNames::Inputs(place) => inputs_in(plan.statements.as_slice().get(place)),
        PlanNames::Implicit(place) => implicit_in(plan.statements.as_slice().get(place)),
        PlanNames::OrderOnly(place) => order_only_in(plan.statements.as_slice().get(place)),
        PlanNames::Defaults => plan.defaults.as_slice(),
    }
}

fn command_of(made: &Made) -> Option<&[u8]>
    ensures { made_by (option_map (λ command. command.now) result) ≡ made.now }
{
    match made {
        Made::Command(command) => Some(command.as_slice()),
        Made::Phony => None,
    }
}

fn command_in(statement: Option<&Statement>) -> Option<&[u8]>
    ensures { made_by (option_map (λ command. command.now) result) ≡ made_at (option_map (λ s. s.now) statement.entry) }
{
    match statement {
        Some(statement) => command_of(&statement.made),
        None => None,
    }
}

impl<'a> NamesView<'a> for &'a [Path] {
    ghost names = { λ names. names.now };

    fn len(&self) -> usize {
        (*self).len()
    }

    fn name(&self, place: usize) -> &'a [u8] {
        self[place].as_slice()
    }
}

impl<'a> PlanView<'a> for Plan {
    type Names = &'a [Path];

    ghost use Rattle.std.specs.Prelude.{◌≡◌, ◌<◌, Some, length, option_map, slice_get};
    ghost use Rattle.kt_ninja.specs.views.View.{made_at, names_listed};
    ghost use Rattle.kt_ninja.specs.Plan.{made_by};

    ghost plan = { λ plan. plan };

    fn statement_count(&'a self) -> usize {
        self.statements.as_slice().len()
    }

    fn command(&'a self, statement: usize) -> Option<&'a [u8]> {
        command_in(self.statements.as_slice().get(statement))
    }

    fn names(&'a self, list: PlanNames) -> &'a [Path] {
        names_in(self, list)
    }
}
