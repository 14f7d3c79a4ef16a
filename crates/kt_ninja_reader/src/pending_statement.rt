//! Statements whose commands may not be known yet.
//! Fast: what few statements have, as a block, implicit and order-only inputs, is held apart. Spares room in each
//! statement.
//! Fast: a statement is given back as soon as the plan's is made of it. Spares the memory of all statements at the
//! peak.
ghost use Rattle.std.specs.Prelude.{◌≡◌, ◌∷◌, ◌++◌, [], true, map, IfOk, OnOk};
ghost use Rattle.kt_ninja_reader.specs.NinjaRead.{statement_of_pending, pending_with};
ghost use Rattle.kt_ninja_reader.specs.Scopes.{value_within};
ghost use Rattle.kt_ninja_reader.specs.inner.Holding.{made_as, making_as, no_more};
ghost use Rattle.kt_ninja_reader.specs.inner.Refusals.{Reads};
ghost use Rattle.kt_ninja_reader.specs.inner.Wording.{build_view};

use crate::forms::Build;
use crate::paths::paths_within;
use crate::read_fault::PartFault;
use crate::scopes::{BlockScope, CommandScopes, Scope, Scopes, command_line};
use crate::spelling::Spelling;
use kt_list::Sequence;
use kt_ninja::{Made, Path, Statement};
use std::alloc::{AllocError, Global};
use std::boxed::Box;
use std::marker::Model;

/// How the outputs of a statement are made.
#[derive(Drop)]
pub(crate) enum Making<'t> {
    ByNothing,
    /// By a command of the statement's own, which few have.
    ByOwn(Box<Sequence<u8>>),
    /// By its rule's command, with the scope of its block.
    ByRule(Spelling<'t>),
}

/// What few statements have: variables of a block, implicit and order-only inputs.
#[derive(Drop)]
struct More {
    block: BlockScope,
    implicit: Sequence<Path>,
    order_only: Sequence<Path>,
}

/// As `More`, but it takes room only where there is any.
#[derive(Drop)]
struct MoreIfAny {
    held: Option<Box<More>>,
}

impl Model for MoreIfAny {
    ghost use Rattle.std.specs.Prelude.{option_map, unwrap_or};
    ghost use Rattle.kt_ninja_reader.specs.declared.pending_statement.More.{More};
    ghost use Rattle.kt_ninja_reader.specs.inner.Holding.{no_more};

    ghost Value = { More };

    ghost view = { λ s. unwrap_or (option_map (λ b. b.value) s.held) no_more };
}

/// A statement, which looks up the variables of its command as the file leaves them.
#[derive(Drop)]
pub(crate) struct PendingStatement<'t> {
    outs: Sequence<Path>,
    making: Making<'t>,
    inputs: Sequence<Path>,
    more: MoreIfAny,
}

impl<'t> Model for PendingStatement<'t> {
    ghost use Rattle.kt_ninja_reader.specs.NinjaRead.{PendingStatement};

    ghost Value = { PendingStatement };

    ghost use Rattle.kt_ninja_reader.specs.inner.Holding.{making_as};

    ghost view = { λ s. record {
      outs = s.outs;
      making = making_as s.more.block s.making;
      inputs = s.inputs;
      implicit = s.more.implicit;
      order_only = s.more.order_only;
    } };
}

/// Statements. Each has room of its own, which is given back as soon as the plan's statement is made of it.
#[derive(Drop)]
pub(crate) struct PendingStatements<'t> {
    items: Vec<Box<PendingStatement<'t>>>,
}

impl<'t> Model for PendingStatements<'t> {
    ghost use Rattle.std.specs.Prelude.{List, map};
    ghost use Rattle.kt_ninja_reader.specs.NinjaRead.{PendingStatement};

    ghost Value = { List PendingStatement };

    ghost view = { λ s. map (λ b. b.value) s.items.items };
}

impl More {
    // Whether there is nothing of it.
    fn is_none(&self) -> bool
        ensures quick { result ≡ true → self.now ≡ no_more }
    {
        self.block.is_unset()
            && are_none(self.implicit.as_slice())
            && are_none(self.order_only.as_slice())
    }
}

fn are_none(names: &[Path]) -> bool
    ensures quick { result ≡ true → names.now ≡ [] }
{
    matches!(names, [])
}

impl MoreIfAny {
    fn of(alloc: Global, more: More) -> Result<MoreIfAny, AllocError>
        ensures { IfOk result (λ held. held ≡ more) }
    {
        if more.is_none() {
            return Ok(MoreIfAny { held: None });
        }
        Ok(MoreIfAny {
            held: Some(Box::new(alloc, more)?),
        })
    }

    fn into_more(self, alloc: Global) -> More
        ensures { result ≡ self }
    {
        let MoreIfAny { held } = self;
        match held {
            Some(more) => Box::into_inner(more),
            None => More {
                block: BlockScope::new(),
                implicit: Sequence::from(Vec::new(alloc)),
                order_only: Sequence::from(Vec::new(alloc)),
            },
        }
    }
}

// What makes the outputs of a statement, by the variables that the file leaves.
fn made(alloc: Global, making: Making, scopes: CommandScopes) -> Result<Made, AllocError>
    ensures { IfOk result (λ made. made
        ≡ made_as scopes.entry.inputs.now scopes.entry.outs.now scopes.entry.scopes.block.now
        scopes.entry.scopes.file.now making.entry) }
{
    match making {
        Making::ByNothing => Ok(Made::Phony),
        Making::ByOwn(command) => Ok(Made::Command(Box::into_inner(command))),
        Making::ByRule(command) => {
            let command = command_line(alloc, &command, scopes)?;
            Ok(Made::Command(Sequence::from(command)))
        }
    }
}

impl<'t> PendingStatement<'t> {
    /// The statement of a build line, by the variables of its block and of the file.
    pub(crate) fn of(
        alloc: Global,
        build: &Build,
        making: Making<'t>,
        block: BlockScope,
        file: &Scope,
    ) -> Result<PendingStatement<'t>, PartFault>
        ensures { Reads result
            (pending_with (value_within block file.now) (making_as block making.entry) (build_view build.now)) }
    {
        let scopes = Scopes {
            block: &block,
            file,
        };
        let outs = paths_within(alloc, build.outs.as_slice(), scopes)?;
        let inputs = paths_within(alloc, build.inputs.explicit.as_slice(), scopes)?;
        let implicit = paths_within(alloc, build.inputs.implicit.as_slice(), scopes)?;
        let order_only = paths_within(alloc, build.inputs.order_only.as_slice(), scopes)?;
        let more = More {
            block,
            implicit,
            order_only,
        };
        Ok(PendingStatement {
            outs,
            making,
            inputs,
            more: MoreIfAny::of(alloc, more)?,
        })
    }

    pub(crate) fn outs(&self) -> &[Path]
        ensures { result.now ≡ self.now.outs }
    {
        self.outs.as_slice()
    }

    // The statement of the plan, by the variables that the file leaves.
    #[tactic(auto, using(crate::proofs::lemmas::StateLemmas::statement_told))]
    fn into_statement(self, alloc: Global, file: &Scope) -> Result<Statement, AllocError>
        ensures { IfOk result (λ s. s ≡ statement_of_pending file.now self.entry) }
    {
        let PendingStatement {
            outs,
            making,
            inputs,
            more,
        } = self;
        let More {
            block,
            implicit,
            order_only,
        } = more.into_more(alloc);
        let scopes = CommandScopes {
            inputs: inputs.as_slice(),
            outs: outs.as_slice(),
            scopes: Scopes {
                block: &block,
                file,
            },
        };
        let made = made(alloc, making, scopes)?;
        Ok(Statement {
            outs,
            made,
            inputs,
            implicit,
            order_only,
        })
    }
}

// The statements of the plan, by the variables that the file leaves.
fn statements(
    alloc: Global,
    file: &Scope,
    pending: Vec<Box<PendingStatement>>,
) -> Result<Vec<Statement>, AllocError>
    ensures { IfOk result (λ statements. statements.items
        ≡ map (statement_of_pending file.now) (map (λ b. b.value) pending.entry.items)) }
{
    let mut statements = Vec::with_capacity(alloc, pending.len())?;
    for statement in pending {
        let statement = Box::into_inner(statement);
        statements.push(statement.into_statement(alloc, file)?)?;
    }
    Ok(statements)
}

impl<'t> PendingStatements<'t> {
    pub(crate) fn new(alloc: Global) -> PendingStatements<'t>
        ensures { result ≡ [] }
    {
        PendingStatements {
            items: Vec::new(alloc),
        }
    }

    #[tactic(auto, using(crate::proofs::lemmas::ReaderLemmas::told_more))]
    pub(crate) fn push(
        &mut self,
        alloc: Global,
        statement: PendingStatement<'t>,
    ) -> Result<(), AllocError>
        ensures { OnOk result (self.new ≡ self.old ++ statement.entry ∷ []) }
    {
        let statement = Box::new(alloc, statement)?;
        Ok(self.items.push(statement)?)
    }

    /// The statements of the plan, by the variables that the file leaves.
    pub(crate) fn into_statements(
        self,
        alloc: Global,
        file: &Scope,
    ) -> Result<Vec<Statement>, AllocError>
        ensures { IfOk result (λ statements. statements.items ≡ map (statement_of_pending file.now) self.entry) }
    {
        let PendingStatements { items } = self;
        statements(alloc, file, items)
    }
}
