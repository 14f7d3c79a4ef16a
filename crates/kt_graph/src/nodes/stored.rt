//! Nodes as the graph holds them, in three lists, with numbers for names.
ghost use Rattle.std.specs.Prelude.{◌≡◌, ◌++◌, ◌∷◌, ◌<◌, ◌≤◌, ◌^◌, [], All, IfOk, OnOk, drop, length};
ghost use Rattle.std.specs.Prelude.{option_map, option_to_list, slice_get, true, None, Some};
ghost use Rattle.kt_graph.specs.declared.nodes.node.NodeKind.TheVariants.{DoubleColon};
ghost use Rattle.kt_graph.specs.inner.nodes.Stored.{input_numbers, order_only_numbers, AreRowsOf, AreStored, Grew};
ghost use Rattle.kt_graph.specs.inner.nodes.Stored.{HasOnePart, HaveOneMaking, IsHeadOf, IsLike, IsPartWithin};
ghost use Rattle.kt_graph.specs.inner.nodes.Stored.{IsSpanWithin, node_like, nodes_stored, PutsParts, cut, stored_with};
ghost use Rattle.kt_graph.specs.inner.nodes.Stored.{part_held, part_seen, parts_held, parts_stored, some_if, stored_at};
ghost use Rattle.kt_graph.specs.declared.nodes.stored.NodeHead.{NodeHead};
ghost use Rattle.kt_list.specs.views.Prefixes.{HasMore};

use crate::nodes::inputs::{has_own_inputs, input_set, order_only_set};
use crate::nodes::node::NodeKind;
use crate::nodes::part::{Maker, NumberedNeeds, NumberedPart, PartRecipe};
use crate::nodes::rows::{are_rows, put_rows};
use crate::nodes::span::{Span, cut, span_of};
use crate::nodes::stem::Stem;
use kt_list::Rows;
use kt_rules::RecipeLine;
use std::alloc::{AllocError, Global};
use std::marker::Model;

/// The nodes of the names that were reached first, in the order in which they were.
///
/// The lists of all nodes are in one vector, one after another, and a node has the places of its own.
#[derive(Drop)]
pub(crate) struct StoredNodes<'a> {
    heads: Vec<NodeHead>,
    parts: Vec<HeldPart<'a>>,
    // The prerequisites of parts, and the inputs of nodes if they differ: two rows each, the second order-only.
    rows: Rows<u32>,
}

/// A node without its lists.
#[derive(Clone, Copy)]
pub(crate) struct NodeHead {
    kind: NodeKind,
    // A mark beside the number takes less room than an option.
    has_making: bool,
    making: u32,
    parts: Span,
    // The first of the two rows of its inputs.
    inputs: u32,
}

/// A part without its lists.
#[derive(Drop)]
pub(crate) struct HeldPart<'a> {
    // No lines without a recipe. The mark for that lies where it takes no room of its own.
    lines: &'a [RecipeLine],
    stem: Stem<'a>,
    // The first of the two rows of its prerequisites.
    pub(crate) needs: u32,
    has_recipe: bool,
}

/// A part with its lists.
#[derive(Clone, Copy)]
pub(crate) struct SeenPart<'g> {
    pub(crate) recipe: Option<&'g [RecipeLine]>,
    pub(crate) stem: &'g Stem<'g>,
    pub(crate) prerequisites: &'g [u32],
    pub(crate) order_only: &'g [u32],
}

impl<'a> Model for StoredNodes<'a> {
    ghost use Rattle.std.specs.Prelude.{List};
    ghost use Rattle.kt_graph.specs.inner.nodes.Stored.{AreStored, StoredNode, nodes_stored};

    ghost Value = { List StoredNode };

    ghost view = { λ nodes. nodes_stored nodes.parts.items nodes.rows nodes.heads.items };

    ghost invariant = { λ nodes. AreStored nodes.parts.items nodes.rows nodes.heads.items };
}

impl<'a> StoredNodes<'a> {
    pub(crate) fn new(alloc: Global) -> StoredNodes<'a>
        ensures { result ≡ [] }
    {
        StoredNodes {
            heads: Vec::new(alloc),
            parts: Vec::new(alloc),
            rows: Rows::new(alloc),
        }
    }

    /// The number of nodes.
    pub(crate) fn len(&self) -> usize
        ensures len { result ≡ length self.now }
        ensures small { result < 2 ^ 63 }
    {
        self.heads.len()
    }

    /// Adds a node with one part at the end. Here and below, with more than 4,294,967,295 numbers or parts, the error
    /// is out of memory.
    #[tactic(auto, using(crate::proofs::lemmas::nodes::StoredLemmas::nodes_push))]
    pub(crate) fn push(
        &mut self,
        alloc: Global,
        maker: Maker,
        part: PartRecipe<'a>,
        needs: &NumberedNeeds,
    ) -> Result<(), AllocError>
        ensures { OnOk result (self.new ≡ self.old ++ stored_with maker.kind maker.made_with
            (part_held part.entry needs.now ∷ []) ∷ []) }
    {
        let head = put_node(alloc, &mut self.parts, &mut self.rows, maker, part, needs)?;
        self.heads.push(head)?;
        Ok(())
    }

    /// Adds a node with one part at the end, which needs what another such node does. Its rows are the other's: none is
    /// looked at.
    #[tactic(auto, using(crate::proofs::lemmas::nodes::StoredLemmas::nodes_push))]
    pub(crate) fn push_like(
        &mut self,
        number: usize,
        maker: Maker,
        part: PartRecipe<'a>,
    ) -> Result<(), AllocError>
        requires { HasOnePart self.old number }
        ensures { OnOk result (self.new ≡ self.old ++ node_like maker.kind maker.made_with part.entry
            (stored_at self.old number) ∷ []) }
    {
        let head = put_like(
            self.heads.as_slice(),
            &mut self.parts,
            &self.rows,
            number,
            maker,
            part,
        )?;
        self.heads.push(head)?;
        Ok(())
    }

    /// Adds a node like one that is there, whose lists serve for both.
    pub(crate) fn push_again(&mut self, number: usize) -> Result<(), AllocError>
        ensures { OnOk result (self.new ≡ self.old ++ option_to_list (slice_get self.old number)) }
    {
        match head_at(self.heads.as_slice(), number) {
            Some(head) => {
                self.heads.push(head)?;
                Ok(())
            }
            None => Ok(()),
        }
    }

    /// Adds a double-colon node at the end.
    #[tactic(auto, using(crate::proofs::lemmas::nodes::StoredLemmas::nodes_push))]
    pub(crate) fn push_double(
        &mut self,
        alloc: Global,
        parts: Vec<NumberedPart<'a>>,
    ) -> Result<(), AllocError>
        ensures { OnOk result (self.new
            ≡ self.old ++ stored_with DoubleColon None (parts_held parts.entry.items) ∷ []) }
    {
        let head = put_double(alloc, &mut self.parts, &mut self.rows, parts)?;
        self.heads.push(head)?;
        Ok(())
    }

    /// The kind of a node. Here and below, a node that doesn't exist is taken for a leaf that needs nothing.
    pub(crate) fn kind(&self, number: usize) -> NodeKind
        ensures { result ≡ (stored_at self.now number).kind }
    {
        match self.heads.get(number) {
            Some(head) => head.kind,
            None => NodeKind::Leaf,
        }
    }

    /// The number of the making, if it makes other names, too.
    pub(crate) fn made_with(&self, number: usize) -> Option<usize>
        ensures { result ≡ (stored_at self.now number).made_with }
    {
        self.heads.get(number)?.made_with()
    }

    /// The number of parts of a node.
    pub(crate) fn parts(&self, number: usize) -> usize
        ensures { result ≡ length (stored_at self.now number).parts }
    {
        match self.heads.get(number) {
            Some(head) => cut(self.parts.as_slice(), head.parts).len(),
            None => 0,
        }
    }

    /// A part of a node, if the node has it.
    pub(crate) fn part(&self, number: usize, part: usize) -> Option<SeenPart<'_>>
        ensures { option_map part_seen result ≡ slice_get (stored_at self.now number).parts part }
    {
        let head = self.heads.get(number)?;
        let part = cut(self.parts.as_slice(), head.parts).get(part)?;
        Some(SeenPart {
            recipe: part.recipe(),
            stem: &part.stem,
            prerequisites: self.rows.row_at(part.needs as usize),
            order_only: self.rows.row_at(part.needs as usize + 1),
        })
    }

    /// The prerequisites of all parts of a node, each once.
    pub(crate) fn inputs(&self, number: usize) -> &[u32]
        ensures { result.now ≡ (stored_at self.now number).inputs }
    {
        match self.heads.get(number) {
            Some(head) => self.rows.row_at(head.inputs as usize),
            None => &[],
        }
    }

    /// The order-only prerequisites of all parts of a node, each once and without the inputs.
    pub(crate) fn order_only(&self, number: usize) -> &[u32]
        ensures { result.now ≡ (stored_at self.now number).order_only }
    {
        match self.heads.get(number) {
            Some(head) => self.rows.row_at(head.inputs as usize + 1),
            None => &[],
        }
    }

    /// Whether two nodes have one making and hold their inputs together. Nothing is promised of those that don't.
    pub(crate) fn are_alike(&self, one: usize, other: usize) -> bool
        ensures quick { result ≡ true → HaveOneMaking (stored_at self.now one) (stored_at self.now other) }
    {
        match (self.heads.get(one), self.heads.get(other)) {
            (Some(one), Some(other)) => {
                one.inputs == other.inputs && one.made_with() == other.made_with()
            }
            _ => false,
        }
    }
}

impl NodeHead {
    fn made_with(&self) -> Option<usize>
        ensures { result ≡ some_if self.now.has_making self.now.making }
    {
        if self.has_making {
            return Some(self.making as usize);
        }
        None
    }
}

impl<'a> HeldPart<'a> {
    // A part whose prerequisites are in the rows from this place on.
    fn of(part: PartRecipe<'a>, needs: u32) -> HeldPart<'a>
        ensures recipe { some_if result.has_recipe result.lines.now
            ≡ option_map (λ lines. lines.now) part.entry.recipe }
        ensures stem { result.stem ≡ part.entry.stem }
        ensures needs { result.needs ≡ needs }
    {
        let PartRecipe { recipe, stem } = part;
        match recipe {
            Some(lines) => HeldPart {
                lines,
                stem,
                needs,
                has_recipe: true,
            },
            None => HeldPart {
                lines: &[],
                stem,
                needs,
                has_recipe: false,
            },
        }
    }

    fn recipe(&self) -> Option<&'a [RecipeLine]>
        ensures { option_map (λ lines. lines.now) result ≡ some_if self.now.has_recipe self.now.lines.now }
    {
        if self.has_recipe {
            return Some(self.lines);
        }
        None
    }
}

fn head_at(heads: &[NodeHead], number: usize) -> Option<NodeHead>
    ensures { result ≡ slice_get heads.now number }
{
    match heads.get(number) {
        Some(head) => Some(*head),
        None => None,
    }
}

// Adds the lists of a node with one part at the end of those of the others.
fn put_node<'a>(
    alloc: Global,
    parts: &mut Vec<HeldPart<'a>>,
    rows: &mut Rows<u32>,
    maker: Maker,
    part: PartRecipe<'a>,
    needs: &NumberedNeeds,
) -> Result<NodeHead, AllocError>
    requires { All (IsPartWithin (length rows.old)) parts.old.items }
    ensures grew { Grew parts.old.items rows.old parts.new.items rows.new }
    ensures head { IfOk result (IsHeadOf parts.new.items rows.new (stored_with maker.kind maker.made_with
        (part_held part.entry needs.now ∷ []))) }
{
    let start = parts.len();
    put_part(parts, rows, part, needs)?;
    head_from(alloc, parts.as_slice(), rows, start, maker)
}

// Adds the part of a node that needs what another node with one part does.
fn put_like<'a>(
    heads: &[NodeHead],
    parts: &mut Vec<HeldPart<'a>>,
    rows: &Rows<u32>,
    number: usize,
    maker: Maker,
    part: PartRecipe<'a>,
) -> Result<NodeHead, AllocError>
    requires stored { AreStored parts.old.items rows.now heads.now }
    requires one { HasOnePart (nodes_stored parts.old.items rows.now heads.now) number }
    ensures grew { Grew parts.old.items rows.now parts.new.items rows.now }
    ensures head { IfOk result (IsHeadOf parts.new.items rows.now (node_like maker.kind maker.made_with part.entry
        (stored_at (nodes_stored parts.old.items rows.now heads.now) number))) }
{
    let (head, needs) = head_like(heads, parts.as_slice(), number, maker)?;
    parts.push(HeldPart::of(part, needs))?;
    Ok(head)
}

// The node whose part comes next, with the inputs of another node and the rows of its only part.
fn head_like(
    heads: &[NodeHead],
    parts: &[HeldPart],
    number: usize,
    maker: Maker,
) -> Result<(NodeHead, u32), AllocError>
    requires within { All (λ head. IsSpanWithin (length parts.now) head.parts) heads.now }
    requires there { number < length heads.now }
    requires alone { (head : NodeHead) → slice_get heads.now number ≡ Some head → length (cut parts.now head.parts)
        ≡ 1 }
    ensures { IfOk result (IsLike heads.now parts.now number maker) }
{
    let like = heads[number];
    let needs = cut(parts, like.parts)[0].needs;
    let making = maker.making()?;
    let head = NodeHead {
        kind: maker.kind,
        has_making: maker.made_with.is_some(),
        making,
        parts: span_of(parts.len(), parts.len() + 1)?,
        inputs: like.inputs,
    };
    Ok((head, needs))
}

// Adds the lists of a double-colon node at the end of those of the others.
fn put_double<'a>(
    alloc: Global,
    held: &mut Vec<HeldPart<'a>>,
    rows: &mut Rows<u32>,
    parts: Vec<NumberedPart<'a>>,
) -> Result<NodeHead, AllocError>
    requires { All (IsPartWithin (length rows.old)) held.old.items }
    ensures grew { Grew held.old.items rows.old held.new.items rows.new }
    ensures head { IfOk result (IsHeadOf held.new.items rows.new (stored_with DoubleColon None
        (parts_held parts.entry.items))) }
{
    let start = held.len();
    put_parts(held, rows, parts)?;
    let maker = Maker {
        kind: NodeKind::DoubleColon,
        made_with: None,
    };
    head_from(alloc, held.as_slice(), rows, start, maker)
}

// The node whose parts begin at a place and are the last ones.
fn head_from(
    alloc: Global,
    held: &[HeldPart],
    rows: &mut Rows<u32>,
    start: usize,
    maker: Maker,
) -> Result<NodeHead, AllocError>
    requires within { All (IsPartWithin (length rows.old)) held.now }
    requires begins { start ≤ length held.now }
    ensures grew { HasMore rows.old rows.new }
    ensures head { IfOk result (IsHeadOf held.now rows.new (stored_with maker.kind maker.made_with
        (parts_stored rows.old (drop start held.now)))) }
{
    let making = maker.making()?;
    let parts = span_of(start, held.len())?;
    let inputs = put_inputs(alloc, &held[start..], rows)?;
    Ok(NodeHead {
        kind: maker.kind,
        has_making: maker.made_with.is_some(),
        making,
        parts,
        inputs,
    })
}

// Adds parts at the end.
fn put_parts<'a>(
    held: &mut Vec<HeldPart<'a>>,
    rows: &mut Rows<u32>,
    parts: Vec<NumberedPart<'a>>,
) -> Result<(), AllocError>
    requires { All (IsPartWithin (length rows.old)) held.old.items }
    ensures grew { Grew held.old.items rows.old held.new.items rows.new }
    ensures put { OnOk result (PutsParts held.old.items held.new.items rows.new (parts_held parts.entry.items)) }
{
    for one in parts {
        put_part(held, rows, one.part, &one.needs)?;
    }
    Ok(())
}

// Adds a part at the end.
fn put_part<'a>(
    held: &mut Vec<HeldPart<'a>>,
    rows: &mut Rows<u32>,
    part: PartRecipe<'a>,
    needs: &NumberedNeeds,
) -> Result<(), AllocError>
    ensures grew { Grew held.old.items rows.old held.new.items rows.new }
    ensures put { OnOk result (PutsParts held.old.items held.new.items rows.new (part_held part.entry needs.now ∷ [])) }
{
    let needs = put_needs(
        held.as_slice(),
        rows,
        needs.prerequisites.as_slice(),
        needs.order_only.as_slice(),
    )?;
    held.push(HeldPart::of(part, needs))?;
    Ok(())
}

// The rows of prerequisites. Those of the last part serve for both if they are the same, as among targets of one rule.
fn put_needs(
    held: &[HeldPart],
    rows: &mut Rows<u32>,
    prerequisites: &[u32],
    order_only: &[u32],
) -> Result<u32, AllocError>
    ensures grew { HasMore rows.old rows.new }
    ensures are { IfOk result (AreRowsOf rows.new prerequisites.now order_only.now) }
{
    if let [.., last] = held {
        if are_rows(rows, last.needs, prerequisites, order_only) {
            return Ok(last.needs);
        }
    }
    put_rows(rows, prerequisites, order_only)
}

// The rows of the inputs of parts. If these are the prerequisites of the only part, its rows serve for both.
fn put_inputs(alloc: Global, held: &[HeldPart], rows: &mut Rows<u32>) -> Result<u32, AllocError>
    requires { All (IsPartWithin (length rows.old)) held.now }
    ensures grew { HasMore rows.old rows.new }
    ensures are { IfOk result (AreRowsOf rows.new (input_numbers (parts_stored rows.old held.now))
        (order_only_numbers (parts_stored rows.old held.now))) }
{
    if let [part] = held {
        if has_own_inputs(alloc, rows, part)? {
            return Ok(part.needs);
        }
    }
    let inputs = input_set(alloc, rows, held)?;
    let order_only = order_only_set(alloc, rows, held, &inputs)?;
    put_rows(rows, inputs.as_slice(), order_only.as_slice())
}
