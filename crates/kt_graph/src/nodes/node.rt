//! What makes a name and what it needs.
//! Fast: a node is handed out as a reference and a number. Spares 24 bytes.
ghost use Rattle.std.specs.Prelude.{◌≡◌, length, not, option_map, slice_get};
ghost use Rattle.std.specs.Iterator.{YieldsFirstRef, item_count};
ghost use Rattle.kt_graph.specs.nodes.Node.{inputs_of, is_leaf, order_only_of, part_lines, part_needed};
ghost use Rattle.kt_graph.specs.nodes.Node.{part_order_only, part_stem};
ghost use Rattle.kt_list.specs.views.Names.{name_at};
ghost use Rattle.kt_graph.specs.views.nodes.Node.{instance_view};

use crate::nodes::node_table::NodeTable;
use crate::nodes::numbering::NameNumbers;
use kt_rules::RecipeLine;
use std::marker::Model;

/// What makes a name.
#[derive(Clone, Copy, Debug, PartialEq, Eq)]
pub enum NodeKind {
    /// All its rules, which have two colons (GNU make manual, "Double-Colon Rules").
    DoubleColon,
    /// Rules that name it.
    Explicit,
    /// A pattern rule, which was searched for (GNU make manual, "Using Implicit Rules").
    Implicit,
    /// It is phony, and nothing else makes it (GNU make manual, "Phony Targets").
    Phony,
    /// Nothing.
    Leaf,
}

/// One making of several names: one run of a recipe that makes them all.
#[derive(Debug, PartialEq, Eq, Hash, Drop)]
pub enum Instance {
    /// By a group, identified by its first target: no other group has that target (GNU make manual, "Multiple Targets
    /// in a Rule").
    Group(Vec<u8>),
    /// By a pattern rule with several targets, identified by its number among the book's `patterns`, a directory and a
    /// stem (GNU make manual, "Introduction to Pattern Rules").
    Pattern {
        rule: usize,
        directory: Vec<u8>,
        stem: Vec<u8>,
    },
}

/// A name with what makes it and what it needs.
///
/// A double-colon node has a part for each of its rules, numbered from 0; any other node has only part 0. For any other
/// part a node returns nothing.
#[derive(Drop)]
pub struct Node<'g> {
    table: &'g NodeTable<'g>,
    number: usize,
}

impl<'g> Model for Node<'g> {
    ghost use Rattle.kt_graph.specs.nodes.Node.{Node};

    ghost Value = { Node };

    ghost use Rattle.kt_graph.specs.inner.nodes.NodeTable.{node_numbered};

    ghost view = { λ node. node_numbered node.table.now node.number };
}

impl<'g> Node<'g> {
    ghost use Rattle.kt_graph.specs.inner.nodes.NodeTable.{node_numbered};

    pub(crate) fn new(table: &'g NodeTable<'g>, number: usize) -> Node<'g>
        ensures { result ≡ node_numbered table.now number }
    {
        Node { table, number }
    }

    pub fn name(&self) -> &'g [u8]
        ensures { result.now ≡ self.now.name }
    {
        name_of(self.table.names(), self.number)
    }

    pub fn kind(&self) -> NodeKind
        ensures { result ≡ self.now.kind }
    {
        self.table.nodes().kind(self.number)
    }

    /// Whether a rule makes it.
    pub fn is_made(&self) -> bool
        ensures { result ≡ not (is_leaf self.now.kind) }
    {
        !matches!(self.table.nodes().kind(self.number), NodeKind::Leaf)
    }

    /// The making that it shares with other names, if they are reached too.
    pub fn instance(&self) -> Option<&'g Instance>
        ensures { option_map (λ instance. instance_view instance.now) result ≡ self.now.made_with }
    {
        self.table
            .instances()
            .get(self.table.nodes().made_with(self.number)?)
    }

    /// The number of parts.
    pub fn parts(&self) -> usize
        ensures { result ≡ length self.now.parts }
    {
        self.table.nodes().parts(self.number)
    }

    /// The recipe of a part, if it has one.
    pub fn recipe(&self, part: usize) -> Option<&'g [RecipeLine]>
        ensures { option_map (λ lines. lines.now) result ≡ part_lines (slice_get self.now.parts part) }
    {
        self.table.nodes().part(self.number, part)?.recipe
    }

    /// The stem of a part, which is the value of `$*` (GNU make manual, "Automatic Variables").
    pub fn stem(&self, part: usize) -> &'g [u8]
        ensures { result.now ≡ part_stem (slice_get self.now.parts part) }
    {
        match self.table.nodes().part(self.number, part) {
            Some(part) => part.stem.of_node(self.name()),
            None => b"",
        }
    }

    /// The prerequisites of a part, in order and with repeats.
    pub fn prerequisites(&self, part: usize) -> Inputs<'g>
        ensures { result ≡ part_needed (slice_get self.now.parts part) }
    {
        match self.table.nodes().part(self.number, part) {
            Some(part) => Inputs::of(self.table.names(), part.prerequisites),
            None => Inputs::of(self.table.names(), &[]),
        }
    }

    /// The order-only prerequisites of a part, in order and with repeats.
    pub fn order_only_prerequisites(&self, part: usize) -> Inputs<'g>
        ensures { result ≡ part_order_only (slice_get self.now.parts part) }
    {
        match self.table.nodes().part(self.number, part) {
            Some(part) => Inputs::of(self.table.names(), part.order_only),
            None => Inputs::of(self.table.names(), &[]),
        }
    }

    /// The prerequisites of all parts, each once.
    pub fn inputs(&self) -> Inputs<'g>
        ensures { result ≡ inputs_of self.now }
    {
        Inputs::of(self.table.names(), self.table.nodes().inputs(self.number))
    }

    /// The order-only prerequisites of all parts, each once, without the inputs.
    pub fn order_only(&self) -> Inputs<'g>
        ensures { result ≡ order_only_of self.now }
    {
        Inputs::of(
            self.table.names(),
            self.table.nodes().order_only(self.number),
        )
    }
}

/// Names that a node needs, in order.
#[derive(Drop)]
pub struct Inputs<'g> {
    names: &'g NameNumbers<'g>,
    numbers: &'g [u32],
}

impl<'g> Model for Inputs<'g> {
    ghost use Rattle.std.specs.Prelude.{ℕ, List};

    ghost Value = { List (List ℕ) };

    ghost use Rattle.kt_list.specs.views.Names.{names_at};

    ghost view = { λ inputs. names_at inputs.names.now inputs.numbers.now };
}

impl<'g> Inputs<'g> {
    ghost use Rattle.kt_list.specs.views.Names.{names_at};

    fn of(names: &'g NameNumbers<'g>, numbers: &'g [u32]) -> Inputs<'g>
        ensures { result ≡ names_at names.now numbers.now }
    {
        Inputs { names, numbers }
    }

    /// The number of names that remain. Takes no memory.
    pub fn len(&self) -> usize
        ensures { result ≡ length self.now }
    {
        self.numbers.len()
    }

    /// The name at a place among those that remain, if there is one. Takes no memory.
    pub fn name(&self, place: usize) -> Option<&'g [u8]>
        ensures { option_map (λ name. name.now) result ≡ slice_get self.now place }
    {
        match self.numbers.get(place) {
            Some(number) => Some(name_of(self.names, *number as usize)),
            None => None,
        }
    }
}

impl<'g> Iterator for Inputs<'g> {
    type Item = &'g [u8];

    ghost next_gives = { YieldsFirstRef (λ inputs. inputs) };

    ghost remaining = { item_count (λ inputs. inputs) };

    fn next(&mut self) -> Option<&'g [u8]> {
        let (number, after) = self.numbers.split_first()?;
        self.numbers = after;
        Some(name_of(self.names, *number as usize))
    }
}

/// The name with a number.
pub(crate) fn name_of<'g>(names: &'g NameNumbers, number: usize) -> &'g [u8]
    ensures { result.now ≡ name_at names.now number }
{
    match names.get(number) {
        Some(name) => name,
        None => b"",
    }
}
