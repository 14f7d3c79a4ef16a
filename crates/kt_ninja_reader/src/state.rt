//! What was read of a Ninja file so far.
ghost use Rattle.std.specs.Prelude.{◌≡◌, ◌++◌, [], true, codes, is_some, map, IfOk, MatchResult};
ghost use Rattle.std.specs.List.{list_all, list_any};
ghost use Rattle.std.specs.Str.{bytes_eq};
ghost use Rattle.kt_ninja_reader.specs.NinjaRead.{add_defaults, add_statement, are_new, bind_variable, block_scope, making_of};
ghost use Rattle.kt_ninja_reader.specs.NinjaRead.{nothing_read, paths_in, plan_of_state, read_build, read_default, read_rule};
ghost use Rattle.kt_ninja_reader.specs.NinjaRead.{rule_command, pending_with};
ghost use Rattle.kt_ninja_reader.specs.Scopes.{bound_text, find_in, refers_to, value_in, value_within};
ghost use Rattle.kt_ninja_reader.specs.inner.Holding.{FailsTest, block_with, making_as};
ghost use Rattle.kt_ninja_reader.specs.inner.Wording.{binding_view, build_view};
ghost use Rattle.kt_ninja_reader.specs.inner.Refusals.{Reads, ReadsAs};
ghost use Rattle.kt_list.specs.Names.{is_among};

use crate::forms::{Binding, Build};
use crate::paths::paths_of_file;
use crate::pending_statement::{Making, PendingStatement, PendingStatements};
use crate::read_fault::PartFault;
use crate::scopes::{BlockScope, Scope, Scopes, expanded};
use crate::spelling::Spelling;
use crate::table::{RuleCommands, Table};
use kt_list::{Names, Sequence, Text};
use kt_ninja::{Path, Plan};
use std::alloc::{AllocError, Global};
use std::boxed::Box;
use std::marker::Model;

/// The variables of the file, the commands of its rules, its statements with their outputs, and the default targets.
#[derive(Drop)]
pub(crate) struct State<'t> {
    alloc: Global,
    file: Scope,
    rules: RuleCommands<'t>,
    pending: PendingStatements<'t>,
    outs: Names,
    defaults: Vec<Path>,
}

impl<'t> Model for State<'t> {
    ghost use Rattle.std.specs.Prelude.{◌≡◌};
    ghost use Rattle.kt_ninja_reader.specs.NinjaRead.{State, pending_outs};

    ghost Value = { State };

    ghost view = { λ s. record {
      file = s.file;
      rules = s.rules;
      pending = s.pending;
      defaults = s.defaults.items;
    } };

    ghost invariant = { λ s. s.outs ≡ pending_outs s.pending };
}

fn is_command(name: &[u8]) -> bool
    ensures { result ≡ bytes_eq name.now (codes "command") }
{
    name == b"command".as_slice()
}

fn is_any_command(names: &[&[u8]]) -> bool
    ensures { result ≡ list_any (λ name. bytes_eq (codes "command") name.now) names.now }
{
    names.iter().any(|name| b"command".as_slice() == *name)
}

fn refers_to_command(alloc: Global, spelling: &Spelling) -> Result<bool, AllocError>
    ensures { IfOk result (λ refers. refers ≡ refers_to (bytes_eq (codes "command")) spelling.now) }
{
    let names = spelling.variables(alloc)?;
    Ok(is_any_command(names.as_slice()))
}

// The command of a rule's block: its one binding.
fn rule_command<'t>(alloc: Global, block: &[Binding<'t>]) -> Result<Spelling<'t>, PartFault>
    ensures { Reads result (rule_command (map binding_view block.now)) }
{
    let [binding] = block else {
        return Err(PartFault::NoReading);
    };
    if !is_command(binding.key) || binding.value.is_empty() {
        return Err(PartFault::NoReading);
    }
    if refers_to_command(alloc, &binding.value)? {
        return Err(PartFault::NoReading);
    }
    Ok(binding.value.copy())
}

fn is_any_key(scope: &BlockScope, names: &[&[u8]]) -> bool
    ensures { result ≡ list_any (λ name. is_some (find_in scope.now name.now)) names.now }
{
    names.iter().any(|name| scope.has(*name))
}

fn refers_to_key(alloc: Global, scope: &BlockScope, spelling: &Spelling) -> Result<bool, AllocError>
    ensures { IfOk result (λ refers. refers ≡ refers_to (λ name. is_some (find_in scope.now name)) spelling.now) }
{
    let names = spelling.variables(alloc)?;
    Ok(is_any_key(scope, names.as_slice()))
}

// What it stands for by the variables of the file alone.
#[tactic(auto, unfolding(crate::specs::Scopes::find_in))]
fn value_of(alloc: Global, spelling: &Spelling, file: &Scope) -> Result<Vec<u8>, AllocError>
    ensures { IfOk result (λ text. text.items ≡ bound_text (value_in file.now) spelling.now) }
{
    let none = BlockScope::new();
    expanded(alloc, spelling, Scopes { block: &none, file })
}

// Adds a binding to the scope of a block.
fn add_to_block(
    alloc: Global,
    file: &Scope,
    block: &mut BlockScope,
    binding: &Binding,
) -> Result<(), PartFault>
    ensures { ReadsAs (λ _. block.new) result (block_with file.now block.old (binding_view binding.now)) }
{
    if block.has(binding.key) || refers_to_key(alloc, block, &binding.value)? {
        return Err(PartFault::NoReading);
    }
    let key = Text::copied(alloc, binding.key)?;
    let value = value_of(alloc, &binding.value, file)?;
    block.put(alloc, key, Sequence::from(value))?;
    Ok(())
}

// The scope of a statement's block.
#[tactic(auto, using(std::proofs::lemmas::List::drop_all, crate::proofs::lemmas::StateLemmas::block_end))]
fn block_scope(alloc: Global, file: &Scope, bindings: &[Binding]) -> Result<BlockScope, PartFault>
    ensures { Reads result (block_scope file.now [] (map binding_view bindings.now)) }
{
    let mut block = BlockScope::new();
    for binding in bindings {
        add_to_block(alloc, file, &mut block, binding)?;
    }
    Ok(block)
}

// Adds outputs, each of which is new.
#[tactic(auto, using(crate::proofs::lemmas::StateLemmas::left_at, crate::proofs::lemmas::StateLemmas::new_taken))]
fn add_outs(names: &mut Names, outs: &[Path]) -> Result<(), PartFault>
    ensures { MatchResult result (λ _. (are_new names.old outs.now ≡ true)
        × (names.new ≡ names.old ++ outs.now)) (FailsTest (are_new names.old outs.now)) }
{
    for out in outs {
        let name = out.as_slice();
        if names.contains(name) {
            return Err(PartFault::NoReading);
        }
        names.add(name)?;
    }
    Ok(())
}

fn all_among(names: &Names, targets: &[Path]) -> bool
    ensures { result ≡ list_all (is_among names.now) targets.now }
{
    targets
        .iter()
        .all(|target| names.contains(target.as_slice()))
}

fn is_phony(name: &[u8]) -> bool
    ensures { result ≡ bytes_eq name.now (codes "phony") }
{
    name == b"phony".as_slice()
}

impl<'t> State<'t> {
    #[tactic(auto, unfolding(crate::specs::NinjaRead::nothing_read))]
    pub(crate) fn new(alloc: Global) -> State<'t>
        ensures { result ≡ nothing_read }
    {
        State {
            alloc,
            file: Table::new(alloc),
            rules: RuleCommands::new(alloc),
            pending: PendingStatements::new(alloc),
            outs: Names::new(alloc),
            defaults: Vec::new(alloc),
        }
    }

    /// A variable at the margin.
    #[tactic(auto, unfolding(crate::specs::NinjaRead::bind_variable))]
    pub(crate) fn bind(mut self, binding: &Binding) -> Result<State<'t>, AllocError>
        ensures { IfOk result (λ state. state ≡ bind_variable self.entry (binding_view binding.now)) }
    {
        let value = value_of(self.alloc, &binding.value, &self.file)?;
        let key = Text::copied(self.alloc, binding.key)?;
        self.file.put(key, Sequence::from(value))?;
        Ok(self)
    }

    /// A rule with its block.
    #[tactic(auto, unfolding(crate::specs::NinjaRead::read_rule))]
    pub(crate) fn read_rule(
        mut self,
        name: &'t [u8],
        block: &[Binding<'t>],
    ) -> Result<State<'t>, PartFault>
        ensures { Reads result (read_rule self.entry name.now (map binding_view block.now)) }
    {
        if is_phony(name) || self.rules.has(name) {
            return Err(PartFault::NoReading);
        }
        let command = rule_command(self.alloc, block)?;
        self.rules.put(name, command)?;
        Ok(self)
    }

    #[tactic(auto, unfolding(crate::specs::NinjaRead::making_of))]
    fn making(&self, rule: &'t [u8], block: &BlockScope) -> Result<Making<'t>, PartFault>
        ensures { ReadsAs (λ making. making_as block.now making) result (making_of self.now rule.now block.now) }
    {
        if is_phony(rule) {
            return Ok(Making::ByNothing);
        }
        let Some(command) = self.rules.get(rule) else {
            return Err(PartFault::NoReading);
        };
        match block.get(b"command".as_slice()) {
            Some(own) => {
                let own = Vec::from_slice(self.alloc, own.as_slice())?;
                Ok(Making::ByOwn(Box::new(self.alloc, Sequence::from(own))?))
            }
            None => Ok(Making::ByRule(command.copy())),
        }
    }

    // The scope of a block.
    fn block(&self, bindings: &[Binding]) -> Result<BlockScope, PartFault>
        ensures { Reads result (block_scope self.now.file [] (map binding_view bindings.now)) }
    {
        block_scope(self.alloc, &self.file, bindings)
    }

    // A statement of a build line.
    fn statement(
        &self,
        build: &Build,
        making: Making<'t>,
        block: BlockScope,
    ) -> Result<PendingStatement<'t>, PartFault>
        ensures { Reads result
            (pending_with (value_within block self.now.file) (making_as block making.entry) (build_view build.now)) }
    {
        PendingStatement::of(self.alloc, build, making, block, &self.file)
    }

    /// A build line with its block.
    #[tactic(auto, unfolding(crate::specs::NinjaRead::read_build))]
    pub(crate) fn read_build(
        self,
        build: &Build<'t>,
        block: &[Binding],
    ) -> Result<State<'t>, PartFault>
        ensures { Reads result (read_build self.entry (build_view build.now) (map binding_view block.now)) }
    {
        let block = self.block(block)?;
        let making = self.making(build.rule, &block)?;
        let statement = self.statement(build, making, block)?;
        self.with_statement(statement)
    }

    // One more statement, if its outputs are new.
    fn with_statement(self, statement: PendingStatement<'t>) -> Result<State<'t>, PartFault>
        ensures { Reads result (add_statement self.entry statement.entry) }
    {
        let State {
            alloc,
            file,
            rules,
            mut pending,
            mut outs,
            defaults,
        } = self;
        add_outs(&mut outs, statement.outs())?;
        pending.push(alloc, statement)?;
        Ok(State {
            alloc,
            file,
            rules,
            pending,
            outs,
            defaults,
        })
    }

    // The names of default targets.
    fn targets(&self, targets: &[Spelling]) -> Result<Sequence<Path>, PartFault>
        ensures { Reads result (paths_in (value_in self.now.file) targets.now) }
    {
        paths_of_file(self.alloc, targets, &self.file)
    }

    /// Default targets.
    #[tactic(auto, unfolding(crate::specs::NinjaRead::read_default))]
    pub(crate) fn read_default(self, targets: &[Spelling]) -> Result<State<'t>, PartFault>
        ensures { Reads result (read_default self.entry targets.now) }
    {
        let names = self.targets(targets)?;
        self.with_defaults(names)
    }

    // More default targets, each an output of a statement above.
    fn with_defaults(mut self, names: Sequence<Path>) -> Result<State<'t>, PartFault>
        ensures { Reads result (add_defaults self.entry names) }
    {
        if !all_among(&self.outs, names.as_slice()) {
            return Err(PartFault::NoReading);
        }
        let mut names = names.into_vec();
        self.defaults.append(&mut names)?;
        Ok(self)
    }

    /// What was read, as a plan.
    #[tactic(auto, unfolding(crate::specs::NinjaRead::plan_of_state))]
    pub(crate) fn into_plan(self) -> Result<Plan, AllocError>
        ensures { IfOk result (λ plan. plan ≡ plan_of_state self.entry) }
    {
        let State {
            alloc,
            file,
            rules,
            pending,
            outs,
            defaults,
        } = self;
        // Given back first, so that the statements are made in their room.
        drop(rules);
        drop(outs);
        let made = pending.into_statements(alloc, &file)?;
        Ok(Plan {
            statements: Sequence::from(made),
            defaults: Sequence::from(defaults),
        })
    }
}
