//! What the statement of a group says besides its command.
//! Fast: a group's inputs are joined from its first member where all members share them. Spares the product of targets
//! and prerequisites in a group.
ghost use Rattle.std.specs.Prelude.{◌≡◌, ◌&&◌, ◌++◌, ◌∷◌, [], filter, flat_map, fold, is_some, not, option_map};
ghost use Rattle.std.specs.Prelude.{IfOk, OnOk};
ghost use Rattle.kt_rules.specs.Names.{is_among, with_name, without_repeats};
ghost use Rattle.kt_graph.specs.nodes.Node.{order_only_of};
ghost use Rattle.kt_recipe.specs.views.Commands.{command_in};
ghost use Rattle.kati.specs.plan.Planning.{has_phony, joined_inputs, joined_order_only};
ghost use Rattle.kati.specs.inner.plan.Drawn.{MayShare, joined_of, joined_view};

use crate::plan::sketch::JoinedNeeds;
use kt_graph::{Inputs, Node};
use kt_list::Names;
use kt_rules::{Book, Name};
use std::alloc::{AllocError, Global};
use std::boxed::Box;

/// Whether a group is always made: it has a command and a phony member.
pub(crate) fn is_always_made(book: &Book, group: &[Node], command: &[u8]) -> bool
    ensures { result ≡ (is_some (command_in command.now) && has_phony book.now group.now) }
{
    match command {
        [] => false,
        [_, ..] => has_phony(book, group),
    }
}

/// The joined prerequisites of the members. A single member's own are used as they are.
pub(crate) fn joined_if_several(
    alloc: Global,
    group: &[Node],
    shares: bool,
) -> Result<Option<Box<JoinedNeeds>>, AllocError>
    requires { MayShare group.now shares }
    ensures { IfOk result (λ joined. option_map (λ b. joined_view b.value) joined ≡ joined_of group.now) }
{
    match group {
        [] => Ok(None),
        [_] => Ok(None),
        [_, _, ..] => Ok(Some(joined(alloc, telling(group, shares))?)),
    }
}

// The first member where all share its inputs, and else all.
fn telling<'a, 'g>(group: &'a [Node<'g>], shares: bool) -> &'a [Node<'g>]
    requires { MayShare group.now shares }
    ensures inputs { joined_inputs result.now ≡ joined_inputs group.now }
    ensures order_only { joined_order_only result.now ≡ joined_order_only group.now }
{
    if shares && !group.is_empty() {
        return &group[..1];
    }
    group
}

fn joined(alloc: Global, group: &[Node]) -> Result<Box<JoinedNeeds>, AllocError>
    ensures { IfOk result (λ b. joined_view b.value ≡ record {
      inputs = joined_inputs group.now;
      order_only = joined_order_only group.now;
    }) }
{
    let inputs = joined_inputs(alloc, group)?;
    let order_only = joined_order_only(alloc, group, &inputs)?;
    let inputs = inputs.texts(alloc)?;
    Ok(Box::new(alloc, JoinedNeeds { inputs, order_only })?)
}

// Whether one of the group is phony.
fn has_phony(book: &Book, group: &[Node]) -> bool
    ensures { result ≡ has_phony book.now group.now }
{
    group.iter().any(|node| book.is_phony(node.name()))
}

// The inputs of all, each once.
#[tactic(auto, unfolding(kt_list::specs::Names::without_repeats))]
fn joined_inputs(alloc: Global, group: &[Node]) -> Result<Names, AllocError>
    ensures { IfOk result (λ inputs. inputs ≡ joined_inputs group.now) }
{
    let mut inputs = Names::new(alloc);
    for node in group {
        add_all(&mut inputs, node.inputs())?;
    }
    Ok(inputs)
}

// The order-only inputs of all, each once, without the inputs.
fn joined_order_only(alloc: Global, group: &[Node], inputs: &Names) -> Result<Vec<Name>, AllocError>
    ensures { inputs.now ≡ joined_inputs group.now
        → IfOk result (λ names. names.items ≡ joined_order_only group.now) }
{
    let names = all_order_only(alloc, group)?;
    others(alloc, &names, inputs)
}

#[tactic(auto, unfolding(kt_list::specs::Names::without_repeats))]
fn all_order_only(alloc: Global, group: &[Node]) -> Result<Names, AllocError>
    ensures { IfOk result (λ names. names ≡ without_repeats (flat_map order_only_of group.now)) }
{
    let mut names = Names::new(alloc);
    for node in group {
        add_all(&mut names, node.order_only())?;
    }
    Ok(names)
}

// Adds the names that aren't there.
fn add_all(set: &mut Names, names: Inputs) -> Result<(), AllocError>
    ensures { OnOk result (set.new ≡ fold with_name set.old names.entry) }
{
    for name in names {
        set.add(name)?;
    }
    Ok(())
}

// The names that aren't inputs.
fn others(alloc: Global, names: &Names, inputs: &Names) -> Result<Vec<Name>, AllocError>
    ensures { IfOk result (λ list. list.items ≡ filter (λ name. not (is_among inputs.now name)) names.now) }
{
    let mut list = Vec::new(alloc);
    for number in 0..names.len() {
        add_other(alloc, &mut list, names.name_at(number), inputs)?;
    }
    Ok(list)
}

fn add_other(
    alloc: Global,
    list: &mut Vec<Name>,
    name: &[u8],
    inputs: &Names,
) -> Result<(), AllocError>
    ensures { OnOk result (list.new.items
        ≡ list.old.items ++ filter (λ other. not (is_among inputs.now other)) (name.now ∷ [])) }
{
    if !inputs.contains(name) {
        list.push(Name::copied(alloc, name)?)?;
    }
    Ok(())
}
