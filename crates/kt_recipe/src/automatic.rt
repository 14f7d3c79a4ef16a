//! The automatic macros of recipes.
//! Fast: the graph has the prerequisites of a node each once, which serves in all nodes but those of double-colon
//! rules. Spares a set for each `$^`.
ghost use Rattle.std.specs.Prelude.{◌≡◌, [], ◌∷◌, ◌++◌, IfOk, IfSome, OnOk, filter, map, not, option_map};
ghost use Rattle.std.specs.Prelude.{slice_get, take};
ghost use Rattle.std.specs.Cow.{cow_slice_items};
ghost use Rattle.kt_text.specs.Words.{is_nonempty};
ghost use Rattle.kt_rules.specs.Names.{is_among, without_repeats};
ghost use Rattle.kt_graph.specs.nodes.Node.{part_needed, part_order_only};
ghost use Rattle.kt_recipe.specs.inner.Asking.{is_only_part, macro_in};
ghost use Rattle.kt_recipe.specs.Automatic.{subject_names_in};
ghost use Rattle.kt_recipe.specs.Forms.{names_text_in};

use crate::forms::{NamePart, alone, text};
use crate::subjects::{Subject, asked_by};
use indexmap::IndexSet;
use kt_eval::Automatic;
use kt_graph::{Inputs, Node};
use kt_list::Key;
use std::alloc::{AllocError, Global};
use std::borrow::CowSlice;
use std::marker::Model;

/// The automatic macros in the recipe of a node's part, each computed when it is looked up (GNU make manual, "Automatic
/// Variables").
#[derive(Drop)]
pub struct PartMacros<'n, 'g> {
    alloc: Global,
    node: &'n Node<'g>,
    part: usize,
}

impl<'n, 'g> Model for PartMacros<'n, 'g> {
    ghost use Rattle.kt_recipe.specs.views.Automatic.{PartMacros};

    ghost Value = { PartMacros };

    ghost view = { λ macros. record { node = macros.node.now; part = macros.part } };
}

/// The automatic macros of a part of a node; its parts are numbered from 0.
pub fn auto_of<'n, 'g>(alloc: Global, node: &'n Node<'g>, part: usize) -> PartMacros<'n, 'g>
    ensures { result ≡ record { node = node.now; part = part } }
{
    PartMacros { alloc, node, part }
}

impl<'n, 'g> Automatic for PartMacros<'n, 'g> {
    ghost use Rattle.kt_recipe.specs.Automatic.{automatic_in};

    ghost values = { λ macros. automatic_in macros.node macros.part };

    fn value(&self, name: &[u8]) -> Result<Option<CowSlice<'_, u8>>, AllocError> {
        macro_in(self.alloc, self.node, self.part, name)
    }
}

// The value of the automatic macro with this name in a part of a node, if there is one.
#[tactic(auto, unfolding(crate::specs::inner::Asking::macro_in))]
fn macro_in<'g>(
    alloc: Global,
    node: &Node<'g>,
    part: usize,
    name: &[u8],
) -> Result<Option<CowSlice<'g, u8>>, AllocError>
    ensures { IfOk result (λ found. option_map cow_slice_items found ≡ macro_in node.now part name.now) }
{
    match asked_by(name) {
        Some((subject, form)) => Ok(Some(told(alloc, node, part, subject, form)?)),
        None => Ok(None),
    }
}

// The names of a subject in a part of a node, as text in a form.
fn told<'g>(
    alloc: Global,
    node: &Node<'g>,
    part: usize,
    subject: Subject,
    form: NamePart,
) -> Result<CowSlice<'g, u8>, AllocError>
    ensures { IfOk result (λ told. cow_slice_items told ≡ names_text_in form (subject_names_in node.now part subject)) }
{
    match only_name(node, part, subject) {
        Some(name) => Ok(CowSlice::Borrowed(alone(form, name))),
        None => {
            let names = names_in(alloc, node, part, subject)?;
            Ok(CowSlice::Owned(text(alloc, form, names.as_slice())?))
        }
    }
}

/// Appends the names of a subject in a part of a node, as text in a form.
pub(crate) fn put_told(
    alloc: Global,
    node: &Node<'_>,
    part: usize,
    subject: Subject,
    form: NamePart,
    out: &mut Vec<u8>,
) -> Result<(), AllocError>
    ensures { OnOk result (out.new.items ≡ out.old.items ++ names_text_in form
        (subject_names_in node.now part subject)) }
{
    let told = told(alloc, node, part, subject, form)?;
    out.extend_from_slice(told.as_slice())
}

// The name of a subject that has only one name, which is then borrowed.
#[tactic(auto, unfolding(crate::specs::Automatic::subject_names))]
fn only_name<'g>(node: &Node<'g>, part: usize, subject: Subject) -> Option<&'g [u8]>
    ensures quick { IfSome result (λ name. subject_names_in node.now part subject ≡ name.now ∷ []) }
{
    match subject {
        Subject::Target => Some(node.name()),
        Subject::First => node.prerequisites(part).next(),
        _ => None,
    }
}

// The names of a subject in a part of a node.
#[tactic(auto, unfolding(crate::specs::Automatic::subject_names))]
fn names_in<'g>(
    alloc: Global,
    node: &Node<'g>,
    part: usize,
    subject: Subject,
) -> Result<Vec<&'g [u8]>, AllocError>
    ensures { IfOk result (λ names. map (λ name. name.now) names.items ≡ subject_names_in node.now part subject) }
{
    match subject {
        Subject::Target => one(alloc, node.name()),
        Subject::First => first(alloc, node.prerequisites(part)),
        Subject::Each => each_name(alloc, node, part),
        Subject::Every => node.prerequisites(part).collect(alloc),
        Subject::OrderOnly => order_only(alloc, node, part),
        Subject::Stem => some(alloc, node.stem(part)),
        Subject::Member => Ok(Vec::new(alloc)),
    }
}

fn first<'g>(alloc: Global, mut names: Inputs<'g>) -> Result<Vec<&'g [u8]>, AllocError>
    ensures { IfOk result (λ first. map (λ name. name.now) first.items ≡ take 1 names.entry) }
{
    match names.next() {
        Some(name) => one(alloc, name),
        None => Ok(Vec::new(alloc)),
    }
}

fn one(alloc: Global, name: &[u8]) -> Result<Vec<&[u8]>, AllocError>
    ensures { IfOk result (λ names. map (λ name. name.now) names.items ≡ name.now ∷ []) }
{
    let mut names = Vec::new(alloc);
    names.push(name)?;
    Ok(names)
}

// The name, if it isn't empty.
fn some(alloc: Global, name: &[u8]) -> Result<Vec<&[u8]>, AllocError>
    ensures { IfOk result (λ names. map (λ name. name.now) names.items ≡ filter is_nonempty (name.now ∷ [])) }
{
    if name.is_empty() {
        Ok(Vec::new(alloc))
    } else {
        one(alloc, name)
    }
}

// The order-only prerequisites, each once and without the other prerequisites.
fn order_only<'g>(alloc: Global, node: &Node<'g>, part: usize) -> Result<Vec<&'g [u8]>, AllocError>
    ensures { IfOk result (λ names. map (λ name. name.now) names.items
        ≡ filter (λ name. not (is_among (without_repeats (part_needed (slice_get node.now.parts part))) name))
        (without_repeats (part_order_only (slice_get node.now.parts part)))) }
{
    if is_only_part(node, part) {
        return collected(alloc, node.order_only());
    }
    let names = each(alloc, node.order_only_prerequisites(part))?;
    let others = each(alloc, node.prerequisites(part))?;
    without(alloc, names.as_slice(), &others)
}

// The prerequisites of a part, each once.
fn each_name<'g>(alloc: Global, node: &Node<'g>, part: usize) -> Result<Vec<&'g [u8]>, AllocError>
    ensures { IfOk result (λ each. map (λ name. name.now) each.items
        ≡ without_repeats (part_needed (slice_get node.now.parts part))) }
{
    if is_only_part(node, part) {
        return collected(alloc, node.inputs());
    }
    let set = each(alloc, node.prerequisites(part))?;
    listed(alloc, set.as_slice())
}

fn collected<'g>(alloc: Global, names: Inputs<'g>) -> Result<Vec<&'g [u8]>, AllocError>
    ensures { IfOk result (λ all. map (λ name. name.now) all.items ≡ names.entry) }
{
    names.collect(alloc)
}

// Whether a node has this part alone, as all nodes but those of double-colon rules: the graph has its prerequisites
// each once.
#[tactic(auto, unfolding(crate::specs::inner::Asking::is_only_part))]
fn is_only_part(node: &Node<'_>, part: usize) -> bool
    ensures { result ≡ is_only_part node.now part }
{
    part == 0 && node.parts() == 1
}

// Each of the names once.
#[tactic(auto, unfolding(kt_list::specs::Names::without_repeats))]
fn each<'g>(alloc: Global, names: Inputs<'g>) -> Result<IndexSet<Key<'g>>, AllocError>
    ensures { IfOk result (λ set. map (λ key. key.0.now) set.keys ≡ without_repeats names.entry) }
{
    let mut set = IndexSet::new(alloc);
    for name in names {
        set.insert(Key(name))?;
    }
    Ok(set)
}

fn listed<'g>(alloc: Global, keys: &[Key<'g>]) -> Result<Vec<&'g [u8]>, AllocError>
    ensures { IfOk result (λ names. map (λ name. name.now) names.items ≡ map (λ key. key.0.now) keys.now) }
{
    let mut names = Vec::with_capacity(alloc, keys.len())?;
    for key in keys {
        names.push(key.0)?;
    }
    Ok(names)
}

// The names that aren't in a set.
fn without<'g>(
    alloc: Global,
    names: &[Key<'g>],
    others: &IndexSet<Key<'g>>,
) -> Result<Vec<&'g [u8]>, AllocError>
    ensures { IfOk result (λ left. map (λ name. name.now) left.items
        ≡ filter (λ name. not (is_among (map (λ other. other.0.now) others.now.keys) name)) (map
        (λ name. name.0.now) names.now)) }
{
    let mut left = Vec::new(alloc);
    for name in names {
        put_other(&mut left, others, name.0)?;
    }
    Ok(left)
}

fn put_other<'g>(
    left: &mut Vec<&'g [u8]>,
    others: &IndexSet<Key<'g>>,
    name: &'g [u8],
) -> Result<(), AllocError>
    ensures { OnOk result (map (λ name. name.now) left.new.items
        ≡ map (λ name. name.now) left.old.items ++ filter
        (λ name. not (is_among (map (λ other. other.0.now) others.now.keys) name)) (name.now ∷ [])) }
{
    if !is_among(others, name) {
        left.push(name)?;
    }
    Ok(())
}

#[tactic(auto, using(crate::proofs::SetLemmas::among_keys))]
fn is_among<'g>(others: &IndexSet<Key<'g>>, name: &'g [u8]) -> bool
    ensures { result ≡ is_among (map (λ other. other.0.now) others.now.keys) name.now }
{
    others.contains(&Key(name))
}
