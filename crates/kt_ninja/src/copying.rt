//! Plans that are built from views of them.
ghost use Rattle.std.specs.Prelude.{◌≡◌, IfOk, slice_get};
ghost use Rattle.kt_ninja.specs.declared.view.PlanNames.TheVariants.{Implicit, Inputs, OrderOnly, Outputs};
ghost use Rattle.kt_ninja.specs.views.View.{made_at, names_listed};

use crate::plan::{Made, Path, Plan, Statement};
use crate::view::{NamesView, PlanNames, PlanView};
use kt_list::Sequence;
use std::alloc::{AllocError, Global};

/// The plan that a view shows, with texts of its own.
pub fn copied_plan<'a, V: PlanView<'a>>(alloc: Global, view: &'a V) -> Result<Plan, AllocError>
    ensures { IfOk result (λ plan. plan ≡ V.plan view.now) }
{
    let statements = copied_statements(alloc, view)?;
    let defaults = copied_list(alloc, view, PlanNames::Defaults)?;
    Ok(Plan {
        statements: Sequence::from(statements),
        defaults,
    })
}

fn copied_statements<'a, V: PlanView<'a>>(
    alloc: Global,
    view: &'a V,
) -> Result<Vec<Statement>, AllocError>
    ensures { IfOk result (λ statements. statements.items ≡ (V.plan view.now).statements) }
{
    let count = view.statement_count();
    let mut statements = Vec::with_capacity(alloc, count)?;
    for place in 0..count {
        statements.push(copied_statement(alloc, view, place)?)?;
    }
    Ok(statements)
}

fn copied_statement<'a, V: PlanView<'a>>(
    alloc: Global,
    view: &'a V,
    place: usize,
) -> Result<Statement, AllocError>
    ensures { IfOk result (λ statement. statement ≡ record {
      outs = names_listed (V.plan view.now) (Outputs place);
      made = made_at (slice_get (V.plan view.now).statements place);
      inputs = names_listed (V.plan view.now) (Inputs place);
      implicit = names_listed (V.plan view.now) (Implicit place);
      order_only = names_listed (V.plan view.now) (OrderOnly place);
    }) }
{
    let outs = copied_list(alloc, view, PlanNames::Outputs(place))?;
    let made = copied_made(alloc, view, place)?;
    let inputs = copied_list(alloc, view, PlanNames::Inputs(place))?;
    let implicit = copied_list(alloc, view, PlanNames::Implicit(place))?;
    let order_only = copied_list(alloc, view, PlanNames::OrderOnly(place))?;
    Ok(Statement {
        outs,
        made,
        inputs,
        implicit,
        order_only,
    })
}

fn copied_made<'a, V: PlanView<'a>>(
    alloc: Global,
    view: &'a V,
    place: usize,
) -> Result<Made, AllocError>
    ensures { IfOk result (λ made. made ≡ made_at (slice_get (V.plan view.now).statements place)) }
{
    match view.command(place) {
        Some(command) => Ok(Made::Command(Sequence::from(Vec::from_slice(alloc, command)?))),
        None => Ok(Made::Phony),
    }
}

fn copied_list<'a, V: PlanView<'a>>(
    alloc: Global,
    view: &'a V,
    list: PlanNames,
) -> Result<Sequence<Path>, AllocError>
    ensures { IfOk result (λ names. names ≡ names_listed (V.plan view.now) list) }
{
    copied_names(alloc, &view.names(list))
}

#[tactic(auto, using(crate::proofs::Places::take_at))]
fn copied_names<'a, N: NamesView<'a>>(
    alloc: Global,
    names: &N,
) -> Result<Sequence<Path>, AllocError>
    ensures { IfOk result (λ copies. copies ≡ N.names names.now) }
{
    let count = names.len();
    let mut copies = Vec::with_capacity(alloc, count)?;
    for place in 0..count {
        copies.push(Path::copied(alloc, names.name(place))?)?;
    }
    Ok(Sequence::from(copies))
}
