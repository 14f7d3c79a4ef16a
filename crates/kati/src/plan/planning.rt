//! The plan of a graph.
//! Fast: whether a name can be written is asked once, of its node; only where one can't is the plan looked through.
//! Spares a look at each further place of a name.
ghost use Rattle.std.specs.Prelude.{◌≡◌, ◌++◌, ◌∷◌, [], List, IfOk, MatchOption, None, OnOk, Some};
ghost use Rattle.std.specs.Prelude.{false, if◌then◌else◌, true};
ghost use Rattle.std.specs.List.{list_all};
ghost use Rattle.kt_text.specs.Words.{Text};
ghost use Rattle.kt_eval.specs.declared.fault.Fault.{Fault as FaultType};
ghost use Rattle.kt_graph.specs.faults.Faults.{IsSoundGraph};
ghost use Rattle.kt_graph.specs.nodes.Groups.{groups_of};
ghost use Rattle.kt_recipe.specs.views.Commands.{command_in};
ghost use Rattle.kt_ninja.specs.Plan.{made_by};
ghost use Rattle.kt_ninja.specs.Writable.{HasWritableTexts, IsWritable, is_name, is_writable_making};
ghost use Rattle.kt_ninja.specs.views.Writable.{told_obstacle};
ghost use Rattle.kt_eval.specs.views.Outcome.{AsksNothing, Gives};
ghost use Rattle.kt_eval.specs.Outcome.{done, then_do};
ghost use Rattle.kati.specs.plan.Planning.{command_for, least_output, plan_groups, plan_of, planned, text_fault};
ghost use Rattle.kati.specs.plan.Planning.{unwritable_in, written};
ghost use Rattle.kati.specs.inner.plan.Drawn.{AlwaysFirst, MayShare, drawn_of, statements_drawn};
ghost use Rattle.kati.specs.inner.plan.Shown.{plan_view};
ghost use Rattle.kati.specs.inner.Stops.{IsFaultOf};
ghost use Rattle.kati.specs.inner.Views.{is_text_trouble};

use crate::plan::graph_plan::GraphPlan;
use crate::plan::sketch::Sketch;
use crate::plan::statements::{is_always_made, joined_if_several};
use crate::words::stop_on;
use kt_eval::{Makefile, Stop};
use kt_graph::{Graph, Groups, Node};
use kt_list::{Rows, Sequence};
use kt_ninja::{PlanNames, PlanView, Unwritable, name_can_be_written, texts_can_be_written};
use kt_recipe::Commands;
use kt_rules::{Book, FaultKind, Name};
use std::alloc::{AllocError, Global};

/// Plans what the goals of a makefile need.
#[derive(Drop)]
pub(crate) struct Planner<'m> {
    alloc: Global,
    book: &'m Book,
    commands: Commands<'m>,
    // The command of a group, which serves for one after another.
    command: Vec<u8>,
}

impl<'m> Planner<'m> {
    pub(crate) fn new(
        alloc: Global,
        makefile: &'m Makefile,
        limit: u64,
    ) -> Result<Planner<'m>, AllocError>
        ensures book { IfOk result (λ planner. planner.book.now ≡ makefile.now.book) }
        ensures table { IfOk result (λ planner. planner.commands.table ≡ makefile.now.macros) }
        ensures limit { IfOk result (λ planner. planner.commands.limit ≡ limit) }
    {
        let commands = Commands::new(alloc, &makefile.macros, limit)?;
        Ok(Planner {
            alloc,
            book: &makefile.book,
            commands,
            command: Vec::new(alloc),
        })
    }

    /// A statement for each group, in order, after that of `ALWAYS_BUILD` if one needs it.
    #[tactic(auto, unfolding(crate::specs::plan::Planning::planned))]
    pub(crate) fn plan<'g>(
        &mut self,
        graph: &'g Graph<'_>,
        goals: Vec<Name>,
        messages: &mut Vec<Sequence<u8>>,
    ) -> Result<GraphPlan<'g>, Stop>
        requires { (known : List Text) × IsSoundGraph self.old.book.now known goals.items graph.now }
        ensures gives { Gives plan_view result messages.new.items (planned self.old.book.now self.old.commands.table
            self.old.commands.limit goals.items graph.now messages.old.items) }
        ensures asks_nothing { AsksNothing result }
        ensures writable { IfOk result (λ plan. IsWritable (plan_view plan)) }
    {
        let (groups, sketch) = self.drawn(graph, messages)?;
        let can_be_written = has_writable_texts(graph, &sketch);
        written(self.alloc, plan_of(groups, sketch, goals), can_be_written)
    }

    // The groups, and what is stored for each besides its nodes.
    fn drawn<'g>(
        &mut self,
        graph: &'g Graph<'_>,
        messages: &mut Vec<Sequence<u8>>,
    ) -> Result<(Rows<Node<'g>>, Sketch), Stop>
        ensures gives { Gives (λ drawn. statements_drawn drawn.0 drawn.1) result messages.new.items
            (plan_groups self.old.book.now self.old.commands.table self.old.commands.limit (groups_of graph.now) []
            messages.old.items) }
        ensures always { IfOk result (λ drawn. AlwaysFirst drawn.0 drawn.1) }
        ensures asks_nothing { AsksNothing result }
    {
        let mut left = graph.groups()?;
        let mut groups = Rows::new(self.alloc);
        let mut sketch = Sketch::new(self.alloc);
        let mut group = Vec::new(self.alloc);
        let mut shares = false;
        while next_group(&mut left, &mut group, &mut shares)? {
            self.add(group.as_slice(), shares, &mut sketch, messages)?;
            groups.append_row(&mut group)?;
        }
        Ok((groups, sketch))
    }

    // Adds what is stored for a group at the end.
    fn add(
        &mut self,
        group: &[Node],
        shares: bool,
        sketch: &mut Sketch,
        messages: &mut Vec<Sequence<u8>>,
    ) -> Result<(), Stop>
        requires { MayShare group.now shares }
        ensures gives { Gives (λ _. sketch.new) result messages.new.items
            (then_do (command_for self.old.commands.table self.old.commands.limit group.now messages.old.items)
            (λ command. done (sketch.old ++ drawn_of self.old.book.now group.now command ∷ []))) }
        ensures asks_nothing { AsksNothing result }
        ensures book { self.new.book.now ≡ self.old.book.now }
        ensures same { self.new.commands ≡ self.old.commands }
    {
        self.put_command(group, messages)?;
        self.sketch_group(group, shares, sketch)?;
        Ok(())
    }

    // Sets the text to the command of the least member, which comes first.
    fn put_command(&mut self, group: &[Node], messages: &mut Vec<Sequence<u8>>) -> Result<(), Stop>
        ensures gives { Gives (λ _. command_in self.new.command.items) result messages.new.items
            (command_for self.old.commands.table self.old.commands.limit group.now messages.old.items) }
        ensures asks_nothing { AsksNothing result }
        ensures book { self.new.book.now ≡ self.old.book.now }
        ensures same { self.new.commands ≡ self.old.commands }
    {
        match group {
            [least, ..] => self.commands.write(least, &mut self.command, messages),
            [] => {
                self.command.clear();
                Ok(())
            }
        }
    }

    // Adds what is stored for a group that has the command of the text, which is empty if it has none. Members that
    // share their inputs are told, so that these are joined by looking at one member.
    fn sketch_group(
        &self,
        group: &[Node],
        shares: bool,
        sketch: &mut Sketch,
    ) -> Result<(), AllocError>
        requires { MayShare group.now shares }
        ensures { OnOk result (sketch.new ≡ sketch.old
            ++ drawn_of self.now.book.now group.now (command_in self.now.command.items) ∷ []) }
    {
        let joined = joined_if_several(self.alloc, group, shares)?;
        let command = self.command.as_slice();
        sketch.push(is_always_made(self.book, group, command), joined, command)
    }
}

// The next group, if one remains, and whether its members are told to share their inputs.
// Idle: `shares` is false.
fn next_group<'g>(
    left: &mut Groups<'g>,
    group: &mut Vec<Node<'g>>,
    shares: &mut bool,
) -> Result<bool, AllocError>
    ensures next { IfOk result (λ some. left.old ≡ (if some then group.new.items ∷ left.new else [])) }
    ensures quick_shares { IfOk result (λ some. some ≡ true → MayShare group.new.items shares.new) }
{
    *shares = left.next_shares_inputs();
    left.next_into(group)
}

// Whether each name of the graph and each command can be written. A name that many need is looked at once.
fn has_writable_texts(graph: &Graph, sketch: &Sketch) -> bool
    ensures quick { result ≡ true → (list_all (λ node. is_name node.name) graph.now ≡ true)
        × (list_all (λ drawn. is_writable_making (made_by drawn.command)) sketch.now ≡ true) }
{
    sketch.has_writable_commands() && has_writable_names(graph)
}

fn has_writable_names(graph: &Graph) -> bool
    ensures { result ≡ list_all (λ node. is_name node.name) graph.now }
{
    for node in graph.nodes() {
        if !name_can_be_written(node.name()) {
            return false;
        }
    }
    true
}

fn plan_of<'g>(groups: Rows<Node<'g>>, sketch: Sketch, goals: Vec<Name>) -> GraphPlan<'g>
    requires { AlwaysFirst groups sketch }
    ensures { plan_view result ≡ plan_of (statements_drawn groups.entry sketch) goals.items }
{
    let always = sketch.has_always();
    GraphPlan {
        groups,
        sketch,
        always,
        goals,
    }
}

// The plan, unless one of its names or commands can't be written. Where it isn't known that all can, they are looked
// at in the plan's order.
#[tactic(auto, unfolding(crate::specs::plan::Planning::written))]
fn written<'g>(
    alloc: Global,
    plan: GraphPlan<'g>,
    can_be_written: bool,
) -> Result<GraphPlan<'g>, Stop>
    requires { can_be_written ≡ true → HasWritableTexts (plan_view plan) }
    ensures gives { (said : List Text) → Gives plan_view result said (written (plan_view plan.entry) said) }
    ensures asks_nothing { AsksNothing result }
    ensures same { IfOk result (λ copy. plan_view copy ≡ plan_view plan.entry) }
    ensures texts { IfOk result (λ copy. HasWritableTexts (plan_view copy)) }
{
    if can_be_written {
        return Ok(plan);
    }
    match text_stop(alloc, &plan) {
        None => Ok(plan),
        Some(stop) => Err(stop),
    }
}

#[tactic(auto, unfolding(crate::specs::plan::Planning::unwritable_in))]
fn text_stop(alloc: Global, plan: &GraphPlan) -> Option<Stop>
    ensures { MatchOption result
        ((unwritable_in (plan_view plan.now).statements ≡ None) × HasWritableTexts (plan_view plan.now))
        (λ stop. (fault : FaultType) × (unwritable_in (plan_view plan.now).statements ≡ Some fault)
        × IsFaultOf fault stop) }
{
    match texts_can_be_written(plan) {
        Ok(()) => None,
        Err(trouble) => stop_of(alloc, plan, trouble),
    }
}

fn stop_of(alloc: Global, plan: &GraphPlan, trouble: Unwritable) -> Option<Stop>
    ensures { MatchOption result
        ((text_fault (plan_view plan.now).statements (told_obstacle trouble.entry) ≡ None)
        × (is_text_trouble (told_obstacle trouble.entry) ≡ false))
        (λ stop. (fault : FaultType)
        × (text_fault (plan_view plan.now).statements (told_obstacle trouble.entry) ≡ Some fault)
        × IsFaultOf fault stop) }
{
    match trouble {
        Unwritable::BadName(name) => Some(stop_on(alloc, FaultKind::NameNotWritable, name, None)),
        Unwritable::BadCommand(number) => {
            let output = least_output(plan, number);
            Some(stop_on(alloc, FaultKind::CommandNotWritable, output, None))
        }
        _ => None,
    }
}

fn least_output<'p>(plan: &'p GraphPlan, number: usize) -> &'p [u8]
    ensures { result.now ≡ least_output (plan_view plan.now).statements number }
{
    match plan.names(PlanNames::Outputs(number)).at(0) {
        Some(name) => name,
        None => b"",
    }
}
