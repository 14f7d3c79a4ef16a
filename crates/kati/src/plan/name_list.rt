//! The names of a statement, wherever they are held.
ghost use Rattle.std.specs.Prelude.{◌≡◌, ◌∷◌, [], option_map, slice_get};
ghost use Rattle.kati.specs.plan.Planning.{always_build, outs_of};
ghost use Rattle.kati.specs.inner.plan.Shown.{name_list_view};

use kt_graph::{ALWAYS_BUILD, Inputs, Node};
use kt_ninja::NamesView;
use kt_rules::Name;

/// Some of the names of a statement, in order.
#[derive(Drop)]
pub(crate) enum NameList<'a, 'g> {
    Empty,
    /// The target that never exists.
    AlwaysBuild,
    /// The names of a group's nodes.
    Members(&'a [Node<'g>]),
    /// Inputs of a node.
    Needs(Inputs<'g>),
    Names(&'a [Name]),
}

impl<'a, 'g> NameList<'a, 'g> {
    /// The name at a place, if there is one.
    #[inline(always)]
    pub(crate) fn at(&self, place: usize) -> Option<&'a [u8]>
        ensures { option_map (λ name. name.now) result ≡ slice_get (name_list_view self.now) place }
    {
        match self {
            NameList::Empty => None,
            NameList::AlwaysBuild => always_build_at(place),
            NameList::Members(nodes) => member_at(*nodes, place),
            NameList::Needs(inputs) => inputs.name(place),
            NameList::Names(names) => name_at(*names, place),
        }
    }
}

impl<'a, 'g: 'a> NamesView<'a> for NameList<'a, 'g> {
    ghost use Rattle.std.specs.Prelude.{◌≡◌, ◌<◌, Some, slice_get};
    ghost use Rattle.kati.specs.inner.plan.Shown.{name_list_view};

    ghost names = { name_list_view };

    #[inline(always)]
    fn len(&self) -> usize {
        match self {
            NameList::Empty => 0,
            NameList::AlwaysBuild => 1,
            NameList::Members(nodes) => nodes.len(),
            NameList::Needs(inputs) => inputs.len(),
            NameList::Names(names) => names.len(),
        }
    }

    #[inline(always)]
    fn name(&self, place: usize) -> &'a [u8] {
        match self.at(place) {
            Some(name) => name,
            None => b"",
        }
    }
}

fn always_build_at(place: usize) -> Option<&'static [u8]>
    ensures { option_map (λ name. name.now) result ≡ slice_get (always_build ∷ []) place }
{
    if place == 0 { Some(ALWAYS_BUILD) } else { None }
}

fn member_at<'a, 'g>(nodes: &'a [Node<'g>], place: usize) -> Option<&'g [u8]>
    ensures { option_map (λ name. name.now) result ≡ slice_get (outs_of nodes.now) place }
{
    Some(nodes.get(place)?.name())
}

fn name_at(names: &[Name], place: usize) -> Option<&[u8]>
    ensures { option_map (λ name. name.now) result ≡ slice_get names.now place }
{
    Some(names.get(place)?.as_slice())
}
