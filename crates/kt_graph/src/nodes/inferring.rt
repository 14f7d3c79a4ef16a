//! What a chosen pattern rule gives to a name.
ghost use Rattle.std.specs.Prelude.{◌≡◌, ◌++◌, option_map, IfOk};
ghost use Rattle.kt_graph.specs.inner.nodes.Inferring.{GivesChosen, pattern_making};
ghost use Rattle.kt_graph.specs.views.nodes.Node.{instance_view};

use crate::nodes::node::Instance;
use crate::nodes::stem::Stem;
use crate::search::choice::Chosen;
use crate::search::stemming::Stemming;
use kt_rules::{Needs, Pattern, RecipeLine};
use std::alloc::{AllocError, Global};

/// The recipe, stem, prerequisites and making that a chosen pattern rule gives to a name.
#[derive(Drop)]
pub(crate) struct InferredParts<'a> {
    pub(crate) recipe: Option<&'a [RecipeLine]>,
    pub(crate) stem: Stem<'a>,
    pub(crate) needs: Needs,
    pub(crate) making: Option<Instance>,
}

impl<'a> InferredParts<'a> {
    pub(crate) fn of(
        alloc: Global,
        name: &[u8],
        pattern: &Pattern<'a>,
        chosen: Chosen,
    ) -> Result<InferredParts<'a>, AllocError>
        ensures { IfOk result (GivesChosen name.now pattern.now chosen) }
    {
        let stemming = Stemming {
            directory: chosen.directory.as_slice(),
            stem: chosen.stem.as_slice(),
        };
        let needs = stemming.needs(alloc, pattern.needs())?;
        let stem = Stem::joined(alloc, name, stemming.directory, stemming.stem)?;
        Ok(InferredParts {
            recipe: pattern.recipe(),
            stem,
            needs,
            making: pattern_making(alloc, pattern, &chosen)?,
        })
    }
}

// The making of a pattern rule, if it has several targets.
fn pattern_making(
    alloc: Global,
    pattern: &Pattern,
    chosen: &Chosen,
) -> Result<Option<Instance>, AllocError>
    ensures { IfOk result (λ making. option_map instance_view making ≡ pattern_making pattern.now chosen.now) }
{
    if pattern.targets().len() <= 1 {
        return Ok(None);
    }
    Ok(Some(Instance::Pattern {
        rule: chosen.rule,
        directory: Vec::from_slice(alloc, chosen.directory.as_slice())?,
        stem: Vec::from_slice(alloc, chosen.stem.as_slice())?,
    }))
}
