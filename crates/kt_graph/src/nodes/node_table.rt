//! Names, makings and nodes of a graph, which its nodes are seen through.
ghost use Rattle.std.specs.Prelude.{◌≡◌, All, length};
ghost use Rattle.kt_graph.specs.inner.nodes.Graph.{AreNodesHeld};
ghost use Rattle.kt_graph.specs.inner.nodes.Numbering.{HasNumbers};

use crate::nodes::node::Instance;
use crate::nodes::numbering::NameNumbers;
use crate::nodes::stored::StoredNodes;
use indexmap::IndexSet;
use std::marker::Model;

/// The names that goals need, the makings, and the nodes of the names.
///
/// A contract sees all three by numbers. All numbers of the nodes are those of names and makings here.
#[derive(Drop)]
pub(crate) struct NodeTable<'a> {
    names: NameNumbers<'a>,
    instances: IndexSet<Instance>,
    nodes: StoredNodes<'a>,
}

impl<'a> Model for NodeTable<'a> {
    ghost use Rattle.kt_graph.specs.inner.nodes.NodeTable.{NodeTable};

    ghost Value = { NodeTable };

    ghost view = { λ table. record { names = table.names; instances = table.instances.keys; nodes = table.nodes } };

    ghost use Rattle.kt_graph.specs.inner.nodes.Graph.{AreNodesHeld};

    ghost invariant = { λ table. AreNodesHeld (record {
      names = table.names;
      instances = table.instances.keys;
      nodes = table.nodes;
    }) };
}

impl<'a> NodeTable<'a> {
    pub(crate) fn new(
        names: NameNumbers<'a>,
        instances: IndexSet<Instance>,
        nodes: StoredNodes<'a>,
    ) -> NodeTable<'a>
        requires { All (HasNumbers (length names) (length instances.keys)) nodes }
        ensures { result ≡ record { names = names.entry; instances = instances.keys; nodes = nodes.entry } }
    {
        // These tell that no two names are equal, and no two makings.
        let _count = names.len();
        let _instances = instances.as_slice();
        NodeTable {
            names,
            instances,
            nodes,
        }
    }

    #[inline(always)]
    pub(crate) fn names(&self) -> &NameNumbers<'a>
        ensures { result.now ≡ self.now.names }
    {
        &self.names
    }

    #[inline(always)]
    pub(crate) fn instances(&self) -> &[Instance]
        ensures { result.now ≡ self.now.instances }
    {
        self.instances.as_slice()
    }

    #[inline(always)]
    pub(crate) fn nodes(&self) -> &StoredNodes<'a>
        ensures value { result.now ≡ self.now.nodes }
        ensures held { AreNodesHeld self.now }
    {
        &self.nodes
    }
}
