//! What makes each name that goals need, as the crates above see it.
ghost use Rattle.std.specs.Prelude.{◌≡◌, ◌∷◌, [], List, MatchOption, bytes_eq, find, length};
ghost use Rattle.std.specs.Prelude.{IfOk};
ghost use Rattle.std.specs.Iterator.{YieldsFirstBy, item_count};
ghost use Rattle.kt_text.specs.Words.{Text};
ghost use Rattle.kt_rules.specs.Entry.{Entry};
ghost use Rattle.kt_graph.specs.nodes.Groups.{groups_of};
ghost use Rattle.kt_graph.specs.Reach.{IsGraph};
ghost use Rattle.kt_graph.specs.inner.nodes.GraphBuilder.{IsDone};
ghost use Rattle.kt_graph.specs.inner.nodes.NodeTable.{node_at, nodes_view};

use crate::known::Known;
use crate::nodes::byte_order::byte_order;
use crate::nodes::graph_builder::GraphBuilder;
use crate::nodes::grouping::Groups;
use crate::nodes::node::Node;
use crate::nodes::node_table::NodeTable;
use kt_rules::{Book, Name};
use std::alloc::{AllocError, Global};
use std::marker::Model;

/// What makes each name that goals need, and what it needs.
///
/// Names have numbers, in the order in which they were reached.
#[derive(Drop)]
pub struct Graph<'a> {
    pub(crate) alloc: Global,
    pub(crate) table: NodeTable<'a>,
    // The numbers of all names, in byte order of the names.
    pub(crate) order: Vec<u32>,
}

impl<'a> Model for Graph<'a> {
    ghost use Rattle.std.specs.Prelude.{List};
    ghost use Rattle.kt_graph.specs.nodes.Node.{Node};

    ghost Value = { List Node };

    ghost use Rattle.kt_graph.specs.inner.nodes.NodeTable.{nodes_view};

    ghost view = { λ graph. nodes_view graph.table graph.order.items };

    ghost use Rattle.kt_graph.specs.inner.nodes.Graph.{IsWhole};

    ghost invariant = { λ graph. IsWhole graph.table graph.order.items };
}

impl<'a> Graph<'a> {
    /// The nodes, in byte order of their names.
    pub fn nodes(&self) -> Nodes<'_>
        ensures { result ≡ self.now }
    {
        Nodes {
            table: &self.table,
            numbers: self.order.as_slice(),
        }
    }

    /// The node of a name, if goals need it.
    pub fn node(&self, name: &[u8]) -> Option<Node<'_>>
        ensures { result ≡ find (λ node. bytes_eq name.now node.name) self.now }
    {
        match self.table.names().number_of(name) {
            Some(number) => node_at(&self.table, number),
            None => None,
        }
    }

    /// The made nodes, grouped by making: the members in byte order, the groups in byte order of their first members.
    pub fn groups(&self) -> Result<Groups<'_>, AllocError>
        ensures { IfOk result (λ groups. groups ≡ groups_of self.now) }
    {
        Groups::of(self.alloc, &self.table, self.order.as_slice())
    }

    /// The graph, whatever is wrong with it.
    pub(crate) fn reached(
        alloc: Global,
        book: &'a Book,
        known: &'a Known<'a>,
        goals: &[Name],
    ) -> Result<Graph<'a>, AllocError>
        ensures { IfOk result (IsGraph book.now known.now goals.now) }
    {
        let mut builder = GraphBuilder::new(alloc, book, known)?;
        builder.reach(goals)?;
        builder.build_all()?;
        let GraphBuilder {
            numbers,
            nodes,
            instances,
            ..
        } = builder;
        let table = NodeTable::new(numbers, instances, nodes);
        Graph::whole(alloc, table)
    }

    // The graph of names and their nodes.
    fn whole(alloc: Global, table: NodeTable<'a>) -> Result<Graph<'a>, AllocError>
        requires { length table.nodes ≡ length table.names }
        ensures { IfOk result (λ graph. (rules : List Entry) (known goals : List Text)
            → IsDone rules known goals table.entry.names table.entry.instances table.entry.nodes
            → IsGraph rules known goals graph) }
    {
        let order = byte_order(alloc, table.names())?;
        // This tells that the numbers of nodes are those of names and makings.
        let _nodes = table.nodes();
        Ok(Graph {
            alloc,
            table,
            order,
        })
    }
}

/// The nodes of a graph, in byte order of their names.
#[derive(Drop)]
pub struct Nodes<'g> {
    table: &'g NodeTable<'g>,
    numbers: &'g [u32],
}

impl<'g> Model for Nodes<'g> {
    ghost use Rattle.std.specs.Prelude.{List};
    ghost use Rattle.kt_graph.specs.nodes.Node.{Node};

    ghost Value = { List Node };

    ghost use Rattle.kt_graph.specs.inner.nodes.NodeTable.{nodes_view};

    ghost view = { λ nodes. nodes_view nodes.table.now nodes.numbers.now };
}

impl<'g> Iterator for Nodes<'g> {
    type Item = Node<'g>;

    ghost next_gives = { YieldsFirstBy (λ node. node) (λ nodes. nodes) };

    ghost remaining = { item_count (λ nodes. nodes) };

    fn next(&mut self) -> Option<Node<'g>> {
        let (node, numbers) = first_node(self.table, self.numbers)?;
        self.numbers = numbers;
        Some(node)
    }
}

// The first node of numbers, and the numbers after it.
fn first_node<'g>(table: &'g NodeTable<'g>, numbers: &'g [u32]) -> Option<(Node<'g>, &'g [u32])>
    ensures { MatchOption result (nodes_view table.now numbers.now ≡ [])
        (λ cut. nodes_view table.now numbers.now ≡ cut.0 ∷ nodes_view table.now cut.1.now) }
{
    let mut left = numbers;
    while let [number, after @ ..] = left {
        left = after;
        if let Some(node) = node_at(table, *number as usize) {
            return Some((node, after));
        }
    }
    None
}

// The node with a number.
fn node_at<'g>(table: &'g NodeTable<'g>, number: usize) -> Option<Node<'g>>
    ensures { result ≡ node_at table.now number }
{
    if number < table.nodes().len() {
        Some(Node::new(table, number))
    } else {
        None
    }
}
