//! Which names of a graph are names of one file.
//! Fast: names of one file are looked for only where a made name isn't its file's canonical spelling. Spares a map of
//! the spellings of all made names.
ghost use Rattle.std.specs.Prelude.{◌≡◌, ◌++◌, ◌∷◌, ◌&&◌, [], All, List, Some, false, true, bytes_eq, find, is_some};
ghost use Rattle.std.specs.Prelude.{not, option_map, unwrap_or, IfOk, OnOk, if◌then◌else◌};
ghost use Rattle.std.specs.List.{list_any};
ghost use Rattle.kt_text.specs.Words.{Text};
ghost use Rattle.kt_graph.specs.inner.faults.Files.{HasFiles, held_for};
ghost use Rattle.kt_graph.specs.views.faults.Files.{is_repeated};
ghost use Rattle.kt_graph.specs.views.nodes.Groups.{made_names};
ghost use Rattle.kt_graph.specs.nodes.Node.{is_leaf};
ghost use Rattle.kt_graph.specs.faults.Paths.{canon_of, is_reserved};

use crate::faults::paths::{canon, is_always};
use crate::faults::spelling::is_canonical;
use crate::nodes::graph::Nodes;
use crate::nodes::node::Node;
use indexmap::IndexMap;
use kt_list::Key;
use kt_rules::Name;
use std::alloc::{AllocError, Global};

/// Whether a name is the canonical spelling of its file, and not the name that is reserved for kati. Takes no memory.
pub(crate) fn is_plain(name: &[u8]) -> bool
    ensures quick_canonical { result ≡ true → canon_of name.now ≡ name.now }
    ensures quick_unreserved { result ≡ true → is_reserved name.now ≡ false }
{
    is_canonical(name) && !is_always(name)
}

/// Whether a name, made or not, is reserved for kati.
pub(crate) fn has_always(alloc: Global, nodes: Nodes<'_>) -> Result<bool, AllocError>
    ensures { IfOk result (λ has. has ≡ list_any (λ node. is_reserved node.name) nodes.entry) }
{
    for node in nodes {
        if is_always_name(alloc, node.name())? {
            return Ok(true);
        }
    }
    Ok(false)
}

fn is_always_name(alloc: Global, name: &[u8]) -> Result<bool, AllocError>
    ensures { IfOk result (λ is. is ≡ is_reserved name.now) }
{
    if is_canonical(name) {
        return Ok(is_always(name));
    }
    let file = canon(alloc, name)?;
    Ok(is_always(file.as_slice()))
}

/// Whether each made name is the canonical spelling of its file, so that no two of them are names of one file. Takes no
/// memory.
pub(crate) fn are_canonical(nodes: Nodes<'_>) -> bool
    ensures quick { result ≡ true → All (λ name. canon_of name ≡ name) (made_names nodes.entry) }
{
    for node in nodes {
        if !is_canonical_if_made(&node) {
            return false;
        }
    }
    true
}

fn is_canonical_if_made(node: &Node<'_>) -> bool
    ensures quick { result ≡ true → All (λ name. canon_of name ≡ name) (made_names (node.now ∷ [])) }
{
    if !node.is_made() {
        return true;
    }
    is_canonical(node.name())
}

/// The files of made names.
#[derive(Drop)]
pub(crate) struct FileSpellings {
    alloc: Global,
    // Each file, and whether several made names are names of it.
    several: IndexMap<Name, bool>,
}

impl FileSpellings {
    /// The files of nodes.
    pub(crate) fn of(alloc: Global, nodes: Nodes<'_>) -> Result<FileSpellings, AllocError>
        ensures { IfOk result (λ files. HasFiles files (made_names nodes.entry)) }
    {
        let mut files = FileSpellings {
            alloc,
            several: IndexMap::new(alloc),
        };
        for node in nodes {
            files.add(&node)?;
        }
        Ok(files)
    }

    fn add(&mut self, node: &Node<'_>) -> Result<(), AllocError>
        ensures { OnOk result ((names : List Text) → HasFiles self.old names
            → HasFiles self.new (names ++ made_names (node.now ∷ []))) }
    {
        if !node.is_made() {
            return Ok(());
        }
        let file = canon(self.alloc, node.name())?;
        self.add_file(Name::from(file))
    }

    #[tactic(auto, using(crate::proofs::lemmas::faults::FileLemmas::held_after))]
    fn add_file(&mut self, file: Name) -> Result<(), AllocError>
        ensures { OnOk result ((other : Text) → held_for self.new.several.entries other
            ≡ (if bytes_eq other file then Some (is_some (held_for self.old.several.entries file))
            else held_for self.old.several.entries other)) }
    {
        let is_known = self.several.contains_key(Key(file.as_slice()));
        self.several.insert(file, is_known)?;
        Ok(())
    }

    /// The first made name whose file has another made name, too.
    #[tactic(auto, using(crate::proofs::lemmas::faults::FileLemmas::found_first))]
    pub(crate) fn first_repeated<'g>(
        &self,
        nodes: Nodes<'g>,
    ) -> Result<Option<&'g [u8]>, AllocError>
        ensures { IfOk result (λ found. (names : List Text) → HasFiles self.now names
            → option_map (λ name. name.now) found ≡ find (is_repeated names) (made_names nodes.entry)) }
    {
        for node in nodes {
            if self.is_repeated(&node)? {
                return Ok(Some(node.name()));
            }
        }
        Ok(None)
    }

    fn is_repeated(&self, node: &Node<'_>) -> Result<bool, AllocError>
        ensures { IfOk result (λ is. (names : List Text) → HasFiles self.now names
            → is ≡ (not (is_leaf node.now.kind) && is_repeated names node.now.name)) }
    {
        if !node.is_made() {
            return Ok(false);
        }
        if is_canonical(node.name()) {
            return Ok(self.is_several(node.name()));
        }
        let file = canon(self.alloc, node.name())?;
        Ok(self.is_several(file.as_slice()))
    }

    fn is_several(&self, file: &[u8]) -> bool
        ensures { result ≡ unwrap_or (held_for self.now.several.entries file.now) false }
    {
        self.several.get(Key(file)).copied().unwrap_or(false)
    }
}
