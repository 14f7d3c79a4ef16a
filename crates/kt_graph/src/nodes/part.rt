//! What a node is made of before it is stored.
ghost use Rattle.std.specs.Prelude.{◌≡◌, ◌<◌, [], IfOk, OnErr, None, is_some, unwrap_or};
ghost use Rattle.kt_rules.specs.declared.line.entry.Needs.{Needs};
ghost use Rattle.kt_rules.specs.views.Targets.{rule_view};
ghost use Rattle.kt_rules.specs.Suffixes.{suffixes_of};
ghost use Rattle.kt_graph.specs.inner.nodes.Needed.{part_with};
ghost use Rattle.kt_graph.specs.inner.nodes.Stems.{own};
ghost use Rattle.kt_graph.specs.inner.nodes.Stored.{some_if};
ghost use Rattle.kt_graph.specs.nodes.Node.{part_of};

use crate::nodes::node::NodeKind;
use crate::nodes::stem::Stem;
use kt_list::narrow;
use kt_rules::{Book, RecipeLine, TargetRule};
use std::alloc::{AllocError, Global};

/// What makes a name.
#[derive(Clone, Copy)]
pub(crate) struct Maker {
    pub(crate) kind: NodeKind,
    /// The number of the making, if it makes other names, too.
    pub(crate) made_with: Option<usize>,
}

impl Maker {
    /// The number of the making, or 0. One beyond 4,294,967,295 is refused as if memory were.
    pub(crate) fn making(self) -> Result<u32, AllocError>
        ensures same { IfOk result (λ number. some_if (is_some self.made_with) number ≡ self.made_with) }
        ensures large { OnErr result (4294967295 < unwrap_or self.made_with 0) }
    {
        match self.made_with {
            Some(number) => narrow(number),
            None => Ok(0),
        }
    }
}

/// A recipe with the stem for its automatic macros.
#[derive(Drop)]
pub(crate) struct PartRecipe<'a> {
    pub(crate) recipe: Option<&'a [RecipeLine]>,
    pub(crate) stem: Stem<'a>,
}

/// Prerequisites by number, in order and with repeats.
#[derive(Drop)]
pub(crate) struct NumberedNeeds {
    pub(crate) prerequisites: Vec<u32>,
    pub(crate) order_only: Vec<u32>,
}

/// A part with its prerequisites.
#[derive(Drop)]
pub(crate) struct NumberedPart<'a> {
    pub(crate) part: PartRecipe<'a>,
    pub(crate) needs: NumberedNeeds,
}

impl<'a> PartRecipe<'a> {
    /// The part of a rule of a target.
    pub(crate) fn of_rule(
        alloc: Global,
        book: &'a Book,
        rule: TargetRule<'a>,
    ) -> Result<PartRecipe<'a>, AllocError>
        ensures { IfOk result (λ part. (needs : Needs) → part_with (rule_view rule.entry).1.name part needs
            ≡ part_of (suffixes_of book.now) (rule_view rule.entry) needs) }
    {
        let stem = Stem::of_rule(alloc, book, rule)?;
        Ok(PartRecipe {
            recipe: rule.entry.recipe(),
            stem,
        })
    }

    /// The part of a node without a recipe.
    pub(crate) fn bare(book: &'a Book) -> PartRecipe<'a>
        ensures recipe { result.recipe ≡ None }
        ensures stem { result.stem ≡ own (suffixes_of book.now) }
    {
        PartRecipe {
            recipe: None,
            stem: Stem::own(book),
        }
    }
}

impl NumberedNeeds {
    /// No prerequisites.
    pub(crate) fn none(alloc: Global) -> NumberedNeeds
        ensures { (result.prerequisites.items ≡ []) × (result.order_only.items ≡ []) }
    {
        NumberedNeeds {
            prerequisites: Vec::new(alloc),
            order_only: Vec::new(alloc),
        }
    }
}
