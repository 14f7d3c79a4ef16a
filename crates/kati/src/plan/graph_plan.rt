//! The plan of a graph, read from the graph.
//! Fast: no plan is built to be written: its names are those of the graph's nodes, and all commands are one text.
//! Spares the plan.
ghost use Rattle.std.specs.Prelude.{◌≡◌, None, option_map, slice_get};
ghost use Rattle.kt_ninja.specs.views.View.{made_at, statement_names};
ghost use Rattle.kt_ninja.specs.Plan.{made_by as made_seen};
ghost use Rattle.kati.specs.inner.plan.Drawn.{inputs_drawn, order_only_drawn, statements_drawn};
ghost use Rattle.kati.specs.inner.plan.Shown.{name_list_view, plan_part_view, plan_view};

use crate::plan::name_list::NameList;
use crate::plan::sketch::Sketch;
use kt_graph::Node;
use kt_list::Rows;
use kt_ninja::{PlanNames, PlanView};
use kt_rules::Name;

/// The plan of a graph, without statements of its own: names are those of the graph's nodes, and all commands are in
/// one text.
#[derive(Drop)]
pub(crate) struct GraphPlan<'g> {
    /// The nodes of each group, in order.
    pub groups: Rows<Node<'g>>,
    /// What is stored for each group besides its nodes.
    pub sketch: Sketch,
    /// Whether the statement of `ALWAYS_BUILD` comes first.
    pub always: bool,
    pub goals: Vec<Name>,
}

// A statement.
#[derive(Drop)]
enum PlanPart<'a, 'g> {
    Missing,
    // That of `ALWAYS_BUILD`.
    Always,
    // That of the group at a place.
    Group(&'a [Node<'g>], &'a Sketch, usize),
}

impl<'g> GraphPlan<'g> {
    // The statement of a group.
    #[inline(always)]
    fn group(&self, place: usize) -> PlanPart<'_, 'g>
        ensures { plan_part_view result
            ≡ slice_get (statements_drawn self.now.groups self.now.sketch) place }
    {
        match self.groups.row(place) {
            Some(nodes) => {
                if place < self.sketch.len() {
                    PlanPart::Group(nodes, &self.sketch, place)
                } else {
                    PlanPart::Missing
                }
            }
            None => PlanPart::Missing,
        }
    }

    // The statement at a place.
    #[inline(always)]
    fn part(&self, statement: usize) -> PlanPart<'_, 'g>
        ensures { plan_part_view result ≡ slice_get (plan_view self.now).statements statement }
    {
        if !self.always {
            return self.group(statement);
        }
        match statement.checked_sub(1) {
            Some(place) => self.group(place),
            None => PlanPart::Always,
        }
    }
}

impl<'a, 'g> PlanPart<'a, 'g> {
    #[inline(always)]
    fn outputs(&self) -> NameList<'a, 'g>
        ensures { name_list_view result ≡ statement_names (λ s. s.outs) (plan_part_view self.now) }
    {
        match self {
            PlanPart::Missing => NameList::Empty,
            PlanPart::Always => NameList::AlwaysBuild,
            PlanPart::Group(nodes, _, _) => NameList::Members(*nodes),
        }
    }

    #[inline(always)]
    fn inputs(&self) -> NameList<'a, 'g>
        ensures { name_list_view result ≡ statement_names (λ s. s.inputs) (plan_part_view self.now) }
    {
        match self {
            PlanPart::Missing | PlanPart::Always => NameList::Empty,
            PlanPart::Group(nodes, sketch, place) => match sketch.joined(*place) {
                Some(joined) => NameList::Names(joined.inputs.as_slice()),
                None => first_inputs(*nodes),
            },
        }
    }

    #[inline(always)]
    fn implicit(&self) -> NameList<'a, 'g>
        ensures { name_list_view result ≡ statement_names (λ s. s.implicit) (plan_part_view self.now) }
    {
        match self {
            PlanPart::Missing | PlanPart::Always => NameList::Empty,
            PlanPart::Group(_, sketch, place) => {
                if sketch.always(*place) {
                    NameList::AlwaysBuild
                } else {
                    NameList::Empty
                }
            }
        }
    }

    #[inline(always)]
    fn order_only(&self) -> NameList<'a, 'g>
        ensures { name_list_view result ≡ statement_names (λ s. s.order_only) (plan_part_view self.now) }
    {
        match self {
            PlanPart::Missing | PlanPart::Always => NameList::Empty,
            PlanPart::Group(nodes, sketch, place) => match sketch.joined(*place) {
                Some(joined) => NameList::Names(joined.order_only.as_slice()),
                None => first_order_only(*nodes),
            },
        }
    }

    fn command(&self) -> Option<&'a [u8]>
        ensures { made_seen (option_map (λ text. text.now) result) ≡ made_at (plan_part_view self.now) }
    {
        match self {
            PlanPart::Missing | PlanPart::Always => None,
            PlanPart::Group(_, sketch, place) => {
                let command = sketch.command(*place);
                if command.is_empty() {
                    None
                } else {
                    Some(command)
                }
            }
        }
    }
}

// The inputs of the first node.
#[inline(always)]
fn first_inputs<'a, 'g>(nodes: &'a [Node<'g>]) -> NameList<'a, 'g>
    ensures { name_list_view result ≡ inputs_drawn nodes.now None }
{
    match nodes {
        [node, ..] => NameList::Needs(node.inputs()),
        [] => NameList::Empty,
    }
}

#[inline(always)]
fn first_order_only<'a, 'g>(nodes: &'a [Node<'g>]) -> NameList<'a, 'g>
    ensures { name_list_view result ≡ order_only_drawn nodes.now None }
{
    match nodes {
        [node, ..] => NameList::Needs(node.order_only()),
        [] => NameList::Empty,
    }
}

impl<'a, 'g: 'a> PlanView<'a> for GraphPlan<'g> {
    type Names = NameList<'a, 'g>;

    ghost use Rattle.std.specs.Prelude.{◌≡◌, ◌<◌, Some, option_map, slice_get};
    ghost use Rattle.kt_ninja.specs.views.View.{made_at};
    ghost use Rattle.kati.specs.inner.plan.Shown.{plan_view};

    ghost plan = { plan_view };

    fn statement_count(&'a self) -> usize {
        let groups = self.groups.len().min(self.sketch.len());
        if self.always { groups + 1 } else { groups }
    }

    fn command(&'a self, statement: usize) -> Option<&'a [u8]> {
        self.part(statement).command()
    }

    #[inline(always)]
    fn names(&'a self, list: PlanNames) -> NameList<'a, 'g> {
        match list {
            PlanNames::Outputs(statement) => self.part(statement).outputs(),
            PlanNames::Inputs(statement) => self.part(statement).inputs(),
            PlanNames::Implicit(statement) => self.part(statement).implicit(),
            PlanNames::OrderOnly(statement) => self.part(statement).order_only(),
            PlanNames::Defaults => NameList::Names(self.goals.as_slice()),
        }
    }
}
