//! Groups the nodes of each making.
ghost use Rattle.std.specs.Prelude.{◌≡◌, ◌∷◌, ◌++◌, ◌&&◌, [], false, true, if◌then◌else◌, not, IfOk, OnOk};
ghost use Rattle.std.specs.List.{prefix_len};
ghost use Rattle.kt_graph.specs.inner.nodes.Buckets.{rows_held};
ghost use Rattle.kt_graph.specs.inner.nodes.Grouping.{AreAllAlike, HasMembers, is_first, is_made_at, leads_at};
ghost use Rattle.kt_graph.specs.inner.nodes.Grouping.{leads_by, making_at, members_of, with_member};
ghost use Rattle.kt_graph.specs.views.nodes.Groups.{FirstSharesInputs};
ghost use Rattle.kt_graph.specs.nodes.Groups.{groups_of};
ghost use Rattle.kt_graph.specs.inner.nodes.NodeTable.{nodes_view};
ghost use Rattle.kt_graph.specs.inner.nodes.Graph.{IsWhole};

use crate::nodes::buckets::{add, bare, row_at};
use crate::nodes::node::{Node, NodeKind};
use crate::nodes::node_table::NodeTable;
use crate::nodes::stored::StoredNodes;
use std::alloc::{AllocError, Global};
use std::marker::Model;

/// The made nodes of a graph that remain, grouped by making: the members in byte order, the groups in byte order of
/// their first members.
///
/// A group is identified by its first member, so a group of one takes no memory.
#[derive(Drop)]
pub struct Groups<'g> {
    table: &'g NodeTable<'g>,
    // The numbers that remain.
    numbers: &'g [u32],
    // The numbers of the nodes of each making.
    members: Vec<Vec<u32>>,
}

impl<'g> Model for Groups<'g> {
    ghost use Rattle.std.specs.Prelude.{List};
    ghost use Rattle.kt_graph.specs.nodes.Node.{Node};

    ghost Value = { List (List Node) };

    ghost use Rattle.kt_graph.specs.inner.nodes.Buckets.{rows_held};
    ghost use Rattle.kt_graph.specs.inner.nodes.Grouping.{groups_left};

    ghost view = { λ groups. groups_left groups.table.now (rows_held groups.members.items) groups.numbers.now };
}

impl<'g> Groups<'g> {
    /// The groups of the nodes of an order.
    #[tactic(auto, using(crate::proofs::lemmas::nodes::GroupingLemmas::groups_are))]
    pub(crate) fn of(
        alloc: Global,
        table: &'g NodeTable<'g>,
        order: &'g [u32],
    ) -> Result<Groups<'g>, AllocError>
        requires { IsWhole table.now order.now }
        ensures { IfOk result (λ groups. groups ≡ groups_of (nodes_view table.now order.now)) }
    {
        let members = members_of(alloc, table.nodes(), order, table.instances().len())?;
        Ok(Groups {
            table,
            numbers: order,
            members,
        })
    }

    /// Whether the members of the next group hold their inputs together: those of one are then those of all. Nothing is
    /// promised where they don't. Takes no memory; looks for the group as `next_into` does.
    pub fn next_shares_inputs(&self) -> bool
        ensures quick { result ≡ true → FirstSharesInputs self.now }
    {
        let nodes = self.table.nodes();
        let numbers = self.numbers;
        let place = leader(nodes, self.members.as_slice(), numbers);
        match numbers.get(place) {
            Some(number) => are_members_alike(nodes, self.members.as_slice(), *number as usize),
            None => false,
        }
    }

    /// Replaces the contents of a vector with the nodes of the next group, if one remains. Returns whether one did.
    pub fn next_into(&mut self, group: &mut Vec<Node<'g>>) -> Result<bool, AllocError>
        ensures { IfOk result (λ some. self.old ≡ (if some then group.new.items ∷ self.new else [])) }
    {
        let nodes = self.table.nodes();
        let numbers = self.numbers;
        let place = leader(nodes, self.members.as_slice(), numbers);
        match numbers.get(place) {
            Some(number) => {
                group.clear();
                put_group(self.table, self.members.as_slice(), *number as usize, group)?;
                self.numbers = &numbers[place + 1..];
                Ok(true)
            }
            None => Ok(false),
        }
    }
}

// Whether the nodes of the group that a number is in hold their inputs together.
fn are_members_alike(nodes: &StoredNodes, members: &[Vec<u32>], number: usize) -> bool
    ensures quick { result ≡ true → AreAllAlike nodes.now number (members_of nodes.now (rows_held members.now) number) }
{
    match making_at(nodes, number) {
        Some(making) => are_all_alike(nodes, number, row_at(members, making)),
        None => true,
    }
}

// Whether these nodes hold their inputs together with one.
#[tactic(auto, using(std::proofs::lemmas::List::take_all))]
fn are_all_alike(nodes: &StoredNodes, one: usize, numbers: &[u32]) -> bool
    ensures quick { result ≡ true → AreAllAlike nodes.now one numbers.now }
{
    for number in numbers {
        if !nodes.are_alike(one, *number as usize) {
            return false;
        }
    }
    true
}

// For each making, those of the numbers whose nodes it makes.
#[tactic(auto, using(std::proofs::lemmas::List::take_all))]
fn members_of(
    alloc: Global,
    nodes: &StoredNodes,
    numbers: &[u32],
    makings: usize,
) -> Result<Vec<Vec<u32>>, AllocError>
    ensures { IfOk result (λ members. HasMembers nodes.now makings numbers.now (rows_held members.items)) }
{
    let mut members = bare(alloc, makings)?;
    for number in numbers {
        note(nodes, *number, &mut members)?;
    }
    Ok(members)
}

fn note(nodes: &StoredNodes, number: u32, members: &mut Vec<Vec<u32>>) -> Result<(), AllocError>
    ensures { OnOk result (rows_held members.new.items ≡ with_member nodes.now (rows_held members.old.items) number) }
{
    if is_made_at(nodes, number as usize) {
        if let Some(making) = making_at(nodes, number as usize) {
            add(members, making, number)?;
        }
    }
    Ok(())
}

// Whether a rule makes the node with a number.
fn is_made_at(nodes: &StoredNodes, number: usize) -> bool
    ensures { result ≡ is_made_at nodes.now number }
{
    !matches!(nodes.kind(number), NodeKind::Leaf)
}

// The making of a node, if the making makes other names, too.
fn making_at(nodes: &StoredNodes, number: usize) -> Option<usize>
    ensures { result ≡ making_at nodes.now number }
{
    nodes.made_with(number)
}

// The place of the first number that is the first of its group, or the end.
fn leader(nodes: &StoredNodes, members: &[Vec<u32>], numbers: &[u32]) -> usize
    ensures { result ≡ prefix_len (λ number. not (leads_at nodes.now (rows_held members.now) number)) numbers.now }
{
    numbers
        .iter()
        .take_while(|number| !leads_at(nodes, members, **number as usize))
        .count()
}

// Whether a number is the first of its group.
fn leads_at(nodes: &StoredNodes, members: &[Vec<u32>], number: usize) -> bool
    ensures { result ≡ leads_at nodes.now (rows_held members.now) number }
{
    is_made_at(nodes, number) && leads_by(members, number, making_at(nodes, number))
}

fn leads_by(members: &[Vec<u32>], number: usize, making: Option<usize>) -> bool
    ensures { result ≡ leads_by (rows_held members.now) number making }
{
    match making {
        None => true,
        Some(making) => is_first(row_at(members, making), number),
    }
}

fn is_first(numbers: &[u32], number: usize) -> bool
    ensures { result ≡ is_first numbers.now number }
{
    match numbers {
        [first, ..] => *first as usize == number,
        [] => false,
    }
}

// Appends the nodes of the group that a number is in.
fn put_group<'g>(
    table: &'g NodeTable<'g>,
    members: &[Vec<u32>],
    number: usize,
    group: &mut Vec<Node<'g>>,
) -> Result<(), AllocError>
    ensures { OnOk result (group.new.items ≡ group.old.items ++ nodes_view table.now
        (members_of table.now.nodes (rows_held members.now) number)) }
{
    match making_at(table.nodes(), number) {
        Some(making) => put_all(table, row_at(members, making), group),
        None => put(table, number, group),
    }
}

fn put_all<'g>(
    table: &'g NodeTable<'g>,
    numbers: &[u32],
    group: &mut Vec<Node<'g>>,
) -> Result<(), AllocError>
    ensures { OnOk result (group.new.items ≡ group.old.items ++ nodes_view table.now numbers.now) }
{
    for number in numbers {
        put(table, *number as usize, group)?;
    }
    Ok(())
}

#[tactic(auto, using(crate::proofs::lemmas::nodes::StoredLemmas::stored_there))]
fn put<'g>(
    table: &'g NodeTable<'g>,
    number: usize,
    group: &mut Vec<Node<'g>>,
) -> Result<(), AllocError>
    ensures { OnOk result (group.new.items ≡ group.old.items ++ nodes_view table.now (number ∷ [])) }
{
    if number < table.nodes().len() {
        group.push(Node::new(table, number))?;
    }
    Ok(())
}
