//! The first thing that is wrong with a graph.
//! Fast: whether all names are plain paths is asked in the order in which they were reached, in which they lie. Spares
//! two walks in byte order, which wait for memory.
ghost use Rattle.std.specs.Prelude.{◌≡◌, All, List, MatchOption, find, map, not, option_map};
ghost use Rattle.std.specs.Prelude.{IfOk, false, true};
ghost use Rattle.std.specs.List.{list_any};
ghost use Rattle.std.specs.Cmp.Lexicographic.{slice_cmp};
ghost use Rattle.std.specs.List.Sorted.{IsStrictlySortedBy};
ghost use Rattle.std.specs.Ordering.{nat_cmp};
ghost use Rattle.kt_text.specs.Words.{Text};
ghost use Rattle.kt_rules.specs.Entry.{Entry};
ghost use Rattle.kt_graph.specs.inner.faults.Troubles.{IsFileTrouble, trouble_view};
ghost use Rattle.kt_graph.specs.faults.Paths.{canon_of, is_reserved};
ghost use Rattle.kt_graph.specs.views.faults.Files.{is_repeated};
ghost use Rattle.kt_graph.specs.views.nodes.Groups.{made_names};
ghost use Rattle.kt_graph.specs.Reach.{ComesFirst, IsCyclic, IsFirst, IsGraph};
ghost use Rattle.kt_graph.specs.inner.nodes.Graph.{makes_among};

use crate::faults::cycles::first_circular;
use crate::faults::edges::Edges;
use crate::faults::files::{FileSpellings, are_canonical, has_always, is_plain};
use crate::faults::trouble::Trouble;
use crate::nodes::graph::Graph;
use crate::nodes::node::name_of;
use crate::nodes::stored::StoredNodes;
use kt_rules::Name;
use std::alloc::AllocError;

/// The first thing that is wrong, if anything is.
pub(crate) fn first_trouble<'g>(
    graph: &'g Graph<'_>,
    goals: &'g [Name],
) -> Result<Option<Trouble<'g>>, AllocError>
    ensures { IfOk result (λ trouble. (rules : List Entry) (known : List Text)
        → IsGraph rules known goals.now graph.now
        → ComesFirst rules known goals.now (option_map trouble_view trouble)) }
{
    if let Some(goal) = unmade_goal(graph, goals) {
        return Ok(Some(Trouble::NoRule(goal.as_slice())));
    }
    if let Some(name) = circular(graph)? {
        return Ok(Some(Trouble::Circular(name)));
    }
    path_trouble(graph)
}

// The first goal that no rule makes.
fn unmade_goal<'g>(graph: &Graph<'_>, goals: &'g [Name]) -> Option<&'g Name>
    ensures { option_map (λ goal. goal.now) result ≡ find (λ goal. not (makes_among graph.now goal)) goals.now }
{
    goals.iter().find(|goal| !makes(graph, goal.as_slice()))
}

fn makes(graph: &Graph<'_>, name: &[u8]) -> bool
    ensures { result ≡ makes_among graph.now name.now }
{
    match graph.node(name) {
        Some(node) => node.is_made(),
        None => false,
    }
}

// The first name in byte order that depends on itself.
#[tactic(auto, using(crate::proofs::lemmas::faults::VertexLemmas::needed_below))]
fn circular<'g>(graph: &'g Graph<'_>) -> Result<Option<&'g [u8]>, AllocError>
    ensures { IfOk result (λ found. (rules : List Entry) (known goals : List Text)
        → IsGraph rules known goals graph.now
        → MatchOption found ((name : Text) → ¬ IsCyclic rules known goals name)
        (λ name. IsFirst (IsCyclic rules known goals) name.now)) }
{
    let edges = Edges::of(
        graph.alloc,
        graph.table.nodes(),
        graph.table.instances().len(),
    )?;
    match first_circular(
        graph.alloc,
        &edges,
        &StoredNodes::new(graph.alloc),
        graph.order.as_slice(),
    )? {
        Some(number) => Ok(Some(name_of(graph.table.names(), number))),
        None => Ok(None),
    }
}

// What is wrong with the files of names.
fn path_trouble<'g>(graph: &'g Graph<'_>) -> Result<Option<Trouble<'g>>, AllocError>
    ensures { IfOk result (λ trouble. (rules : List Entry) (known goals : List Text)
        → IsGraph rules known goals graph.now
        → IsFileTrouble rules known goals (option_map trouble_view trouble)) }
{
    if has_plain_names(graph) {
        return Ok(None);
    }
    if has_always(graph.alloc, graph.nodes())? {
        return Ok(Some(Trouble::Reserved));
    }
    match first_repeated(graph)? {
        Some(name) => Ok(Some(Trouble::OneFile(name))),
        None => Ok(None),
    }
}

// Whether each name is the canonical spelling of its file, and none is the reserved one. They are asked in the
// order in which they were reached, in which they lie: in byte order each look would wait for memory. Takes no
// memory.
fn has_plain_names(graph: &Graph<'_>) -> bool
    ensures quick_unreserved { result ≡ true → list_any (λ node. is_reserved node.name) graph.now ≡ false }
    ensures quick_canonical { result ≡ true → All (λ name. canon_of name ≡ name) (made_names graph.now) }
{
    let names = graph.table.names();
    for number in 0..names.len() {
        if !is_plain(name_of(names, number)) {
            return false;
        }
    }
    true
}

// The first made name whose file has another made name, too.
#[tactic(auto, using(crate::proofs::lemmas::faults::TroubleLemmas::none_repeated))]
fn first_repeated<'g>(graph: &'g Graph<'_>) -> Result<Option<&'g [u8]>, AllocError>
    ensures { IfOk result (λ found. IsStrictlySortedBy (slice_cmp nat_cmp) (map (λ node. node.name) graph.now)
        → option_map (λ name. name.now) found ≡ find (is_repeated (made_names graph.now)) (made_names graph.now)) }
{
    // Names differ, so two names of one file aren't both its canonical spelling.
    if are_canonical(graph.nodes()) {
        return Ok(None);
    }
    let files = FileSpellings::of(graph.alloc, graph.nodes())?;
    files.first_repeated(graph.nodes())
}
