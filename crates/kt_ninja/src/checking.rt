//! Which plans can be written.
ghost use Rattle.std.specs.Prelude.{◌≡◌, ◌≤◌, ◌↔◌, ◌||◌, [], length, not, find, option_map, slice_get, take, IsOk};
ghost use Rattle.std.specs.List.{list_all, list_any, position_from};
ghost use Rattle.kt_ninja.specs.Plan.{names_of, outputs, made_by};
ghost use Rattle.kt_list.specs.Names.{is_among};
ghost use Rattle.kt_ninja.specs.views.View.{names_listed, statement_names};
ghost use Rattle.kt_ninja.specs.inner.View.{obstacle_at};
ghost use Rattle.kt_ninja.specs.declared.view.PlanNames.TheVariants.{Outputs};
ghost use Rattle.kt_ninja.specs.Writable.{HasWritableTexts, IsWritable, is_command_byte, is_empty};
ghost use Rattle.kt_ninja.specs.views.Writable.{first_obstacle, not_made, repeated_after, obstacle_in};
ghost use Rattle.kt_ninja.specs.Writable.{is_writable_making, is_name, is_path_byte};
ghost use Rattle.kt_ninja.specs.Writable.{obstacle_of_statements};

use crate::plan::Plan;
use crate::view::{NamesView, PlanNames, PlanView};
use memchr::memchr3;
use thiserror::Error;

/// What keeps a plan from being written. Numbers are those of the plan's statements, from 0.
#[derive(Debug, Drop, Clone, Copy, PartialEq, Eq, Error)]
pub enum Unwritable<'a> {
    #[error("a statement has no output")]
    NoOutput(usize),
    /// Empty, or with a bar, CR, LF or NUL.
    #[error("a name can't be written")]
    BadName(&'a [u8]),
    /// Empty, or with a CR, LF or NUL.
    #[error("a command can't be written")]
    BadCommand(usize),
    #[error("an output stands twice")]
    Repeated(&'a [u8]),
    #[error("a default target is no output")]
    NotAnOutput(&'a [u8]),
}

fn is_written_name_byte(byte: u8) -> bool
    ensures { result ≡ is_path_byte byte }
{
    !matches!(byte, b'|' | b'\r' | b'\n' | 0)
}

fn all_name_bytes(bytes: &[u8]) -> bool
    ensures { result ≡ list_all is_path_byte bytes.now }
{
    bytes.iter().all(|byte| is_written_name_byte(*byte))
}

/// Whether a command can hold these bytes: there is no CR, LF or NUL.
#[tactic(auto, using(crate::proofs::Finding::none_found))]
pub fn command_can_hold(bytes: &[u8]) -> bool
    ensures { result ≡ list_all is_command_byte bytes.now }
{
    memchr3(b'\r', b'\n', 0, bytes).is_none()
}

fn has_no_bytes(bytes: &[u8]) -> bool
    ensures { result ≡ is_empty bytes.now }
{
    matches!(bytes, [])
}

/// Whether a name can be written: it isn't empty, and there is no bar, CR, LF or NUL.
pub fn name_can_be_written(name: &[u8]) -> bool
    ensures { result ≡ is_name name.now }
{
    !has_no_bytes(name) && all_name_bytes(name)
}

fn is_written_command(command: Option<&[u8]>) -> bool
    ensures { result ≡ is_writable_making (made_by (option_map (λ text. text.now) command.entry)) }
{
    match command {
        Some(command) => !has_no_bytes(command) && command_can_hold(command),
        None => true,
    }
}

/// The first of the names that can't be written.
#[tactic(auto, using(crate::proofs::Places::found_here, crate::proofs::Places::found_later))]
fn first_bad<'a, N: NamesView<'a>>(names: &N) -> Option<&'a [u8]>
    ensures { option_map (λ name. name.now) result ≡ find (λ n. not (is_name n)) (N.names names.now) }
{
    for place in 0..names.len() {
        let name = names.name(place);
        if !name_can_be_written(name) {
            return Some(name);
        }
    }
    None
}

/// The first name of a list that can't be written.
fn first_bad_name<'a, V: PlanView<'a>>(view: &'a V, list: PlanNames) -> Option<&'a [u8]>
    ensures { option_map (λ name. name.now) result ≡ find (λ n. not (is_name n)) (names_listed (V.plan view.now) list) }
{
    first_bad(&view.names(list))
}

fn has_no_output<'a, V: PlanView<'a>>(view: &'a V, statement: usize) -> bool
    ensures { result ≡ is_empty (names_listed (V.plan view.now) (Outputs statement)) }
{
    view.names(PlanNames::Outputs(statement)).len() == 0
}

#[tactic(auto, using(crate::proofs::Places::place_later))]
fn first_without_output<'a, V: PlanView<'a>>(view: &'a V) -> Option<usize>
    ensures { result ≡ position_from (λ s. is_empty s.outs) 0 (V.plan view.now).statements }
{
    for statement in 0..view.statement_count() {
        if has_no_output(view, statement) {
            return Some(statement);
        }
    }
    None
}

/// Whether the name is among so many of a list.
#[tactic(auto, using(crate::proofs::Places::passes_here, crate::proofs::Places::passes_none))]
fn holds<'a, N: NamesView<'a>>(names: &N, count: usize, name: &[u8]) -> bool
    requires { count ≤ length (N.names names.now) }
    ensures { result ≡ is_among (take count (N.names names.now)) name.now }
{
    for place in 0..count {
        if name == names.name(place) {
            return true;
        }
    }
    false
}

/// Whether the name is an output of a statement.
fn is_made_at<'a, V: PlanView<'a>>(view: &'a V, statement: usize, name: &[u8]) -> bool
    ensures { result ≡ is_among (names_listed (V.plan view.now) (Outputs statement)) name.now }
{
    let outs = view.names(PlanNames::Outputs(statement));
    holds(&outs, outs.len(), name)
}

/// Whether one of so many statements makes the name.
#[tactic(auto, using(crate::proofs::Places::passes_here, crate::proofs::Places::passes_none))]
fn is_made_by<'a, V: PlanView<'a>>(view: &'a V, count: usize, name: &[u8]) -> bool
    requires { count ≤ length (V.plan view.now).statements }
    ensures { result ≡ list_any (λ s. is_among s.outs name.now) (take count (V.plan view.now).statements) }
{
    for statement in 0..count {
        if is_made_at(view, statement, name) {
            return true;
        }
    }
    false
}

fn is_output<'a, V: PlanView<'a>>(view: &'a V, count: usize, name: &[u8]) -> bool
    requires { count ≤ length (V.plan view.now).statements }
    ensures { result ≡ is_among (outputs (take count (V.plan view.now).statements)) name.now }
{
    is_made_by(view, count, name)
}

/// The first name of the statement that can't be written.
#[tactic(auto, using(crate::proofs::Troubles::find_in_found))]
fn bad_name_of<'a, V: PlanView<'a>>(view: &'a V, statement: usize) -> Option<&'a [u8]>
    ensures { option_map (λ name. name.now) result
        ≡ find (λ n. not (is_name n)) (statement_names names_of (slice_get (V.plan view.now).statements statement)) }
{
    if let Some(name) = first_bad_name(view, PlanNames::Outputs(statement)) {
        return Some(name);
    }
    if let Some(name) = first_bad_name(view, PlanNames::Inputs(statement)) {
        return Some(name);
    }
    if let Some(name) = first_bad_name(view, PlanNames::Implicit(statement)) {
        return Some(name);
    }
    first_bad_name(view, PlanNames::OrderOnly(statement))
}

fn statement_can_be_written<'a, V: PlanView<'a>>(
    view: &'a V,
    statement: usize,
) -> Result<(), Unwritable<'a>>
    ensures { obstacle_in result ≡ obstacle_at statement (slice_get (V.plan view.now).statements statement) }
{
    if let Some(name) = bad_name_of(view, statement) {
        return Err(Unwritable::BadName(name));
    }
    if is_written_command(view.command(statement)) {
        Ok(())
    } else {
        Err(Unwritable::BadCommand(statement))
    }
}

/// Whether each name and each command of the plan can be written, and else the first that can't, statement by
/// statement, names first: `BadName` or `BadCommand`. Looks at each byte at most once, at no other part of the plan,
/// and takes no memory.
pub fn texts_can_be_written<'a, V: PlanView<'a>>(view: &'a V) -> Result<(), Unwritable<'a>>
    ensures obstacle { obstacle_in result ≡ obstacle_of_statements 0 (V.plan view.now).statements }
    ensures writable { IsOk result ↔ HasWritableTexts (V.plan view.now) }
{
    first_bad_text(view)
}

#[tactic(auto, using(crate::proofs::Troubles::obstacles_here))]
fn first_bad_text<'a, V: PlanView<'a>>(view: &'a V) -> Result<(), Unwritable<'a>>
    ensures { obstacle_in result ≡ obstacle_of_statements 0 (V.plan view.now).statements }
{
    for statement in 0..view.statement_count() {
        if let Err(obstacle) = statement_can_be_written(view, statement) {
            return Err(obstacle);
        }
    }
    Ok(())
}

/// Whether the name is an output of one of so many statements, or among so many of a list.
fn is_repeated<'a, V: PlanView<'a>>(
    view: &'a V,
    statement: usize,
    outs: &V::Names,
    count: usize,
    name: &[u8],
) -> bool
    requires statement { statement ≤ length (V.plan view.now).statements }
    requires count { count ≤ length (V.Names.names outs.now) }
    ensures { result ≡ (is_among (outputs (take statement (V.plan view.now).statements)) name.now
        || is_among (take count (V.Names.names outs.now)) name.now) }
{
    is_output(view, statement, name) || holds(outs, count, name)
}

/// The first of the names that is an output of one of so many statements, or stands before it among them.
#[tactic(auto, using(crate::proofs::Troubles::repeats_here, crate::proofs::Troubles::repeats_later))]
fn repeated_among<'a, V: PlanView<'a>>(
    view: &'a V,
    statement: usize,
    outs: &V::Names,
) -> Option<&'a [u8]>
    requires { statement ≤ length (V.plan view.now).statements }
    ensures { option_map (λ name. name.now) result
        ≡ repeated_after (outputs (take statement (V.plan view.now).statements)) (V.Names.names outs.now) }
{
    for place in 0..outs.len() {
        let out = outs.name(place);
        if is_repeated(view, statement, outs, place, out) {
            return Some(out);
        }
    }
    None
}

/// The first output of a statement that stands among those of the earlier ones, or before it in its own.
fn repeated_in<'a, V: PlanView<'a>>(view: &'a V, statement: usize) -> Option<&'a [u8]>
    requires { statement ≤ length (V.plan view.now).statements }
    ensures { option_map (λ name. name.now) result
        ≡ repeated_after (outputs (take statement (V.plan view.now).statements))
        (names_listed (V.plan view.now) (Outputs statement)) }
{
    repeated_among(view, statement, &view.names(PlanNames::Outputs(statement)))
}

fn first_repeated<'a, V: PlanView<'a>>(view: &'a V) -> Option<&'a [u8]>
    ensures { option_map (λ name. name.now) result ≡ repeated_after [] (outputs (V.plan view.now).statements) }
{
    for statement in 0..view.statement_count() {
        if let Some(out) = repeated_in(view, statement) {
            return Some(out);
        }
    }
    None
}

/// The first of the names that is no output.
#[tactic(auto, using(std::proofs::lemmas::List::take_all, crate::proofs::Places::found_here))]
fn not_made_among<'a, V: PlanView<'a>>(view: &'a V, names: &V::Names) -> Option<&'a [u8]>
    ensures { option_map (λ name. name.now) result
        ≡ not_made (outputs (V.plan view.now).statements) (V.Names.names names.now) }
{
    let statements = view.statement_count();
    for place in 0..names.len() {
        let name = names.name(place);
        if !is_output(view, statements, name) {
            return Some(name);
        }
    }
    None
}

fn first_not_made<'a, V: PlanView<'a>>(view: &'a V) -> Option<&'a [u8]>
    ensures { option_map (λ name. name.now) result
        ≡ not_made (outputs (V.plan view.now).statements) (V.plan view.now).defaults }
{
    not_made_among(view, &view.names(PlanNames::Defaults))
}

fn first_obstacle_in<'a, V: PlanView<'a>>(view: &'a V) -> Result<(), Unwritable<'a>>
    ensures { obstacle_in result ≡ first_obstacle (V.plan view.now) }
{
    if let Some(number) = first_without_output(view) {
        return Err(Unwritable::NoOutput(number));
    }
    first_bad_text(view)?;
    if let Some(name) = first_repeated(view) {
        return Err(Unwritable::Repeated(name));
    }
    match first_not_made(view) {
        Some(name) => Err(Unwritable::NotAnOutput(name)),
        None => Ok(()),
    }
}

/// Whether the plan that a view shows can be written as a Ninja file, and else the first that keeps it from that: a
/// statement without output; then names and commands, statement by statement; then an output that stands twice; then
/// a default target that is no output.
///
/// Takes no memory, and so compares outputs pair by pair: its time grows with the square of their number.
pub fn writable_view<'a, V: PlanView<'a>>(view: &'a V) -> Result<(), Unwritable<'a>>
    ensures obstacle { obstacle_in result ≡ first_obstacle (V.plan view.now) }
    ensures writable { IsOk result ↔ IsWritable (V.plan view.now) }
{
    first_obstacle_in(view)
}

/// Whether the plan can be written as a Ninja file, and else what keeps it from that, as `writable_view` tells it.
pub fn writable(plan: &Plan) -> Result<(), Unwritable<'_>>
    ensures obstacle { obstacle_in result ≡ first_obstacle plan.now }
    ensures writable { IsOk result ↔ IsWritable plan.now }
{
    writable_view(plan)
}
