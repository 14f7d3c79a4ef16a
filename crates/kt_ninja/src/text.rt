//! The text of a plan as a Ninja file.
//! Fast: a command is asked for once, and so is each list of names, which is read by places. Spares a look-up of the
//! statement for each name.
ghost use Rattle.std.specs.Prelude.{◌≡◌, ◌≤◌, ◌<◌, ℕ, OnOk, OnErr, Some, false, length, option_map, slice_get};
ghost use Rattle.kt_list.specs.Counters.{Rises};
ghost use Rattle.kt_ninja.specs.inner.Blocks.{Prints, Puts};
ghost use Rattle.kt_ninja.specs.Text.{build_text, command_text, defaults_text, lead_text, marked_text, names_text};
ghost use Rattle.kt_ninja.specs.Text.{number_text, plan_text, rule_count, rule_name_text, rule_text, statement_text};
ghost use Rattle.kt_ninja.specs.Text.{statements_text};
ghost use Rattle.kt_ninja.specs.views.View.{made_at};
ghost use Rattle.kt_ninja.specs.Plan.{made_by};
ghost use Rattle.kt_ninja.specs.Writable.{IsWritable};
ghost use Rattle.kt_ninja.specs.Written.{GrowsByFront, Takes};
ghost use Rattle.kt_ninja.specs.declared.plan.Statement.{Statement as StatementSeen};

use crate::block::Block;
use crate::escapes::Escapes;
use crate::plan::Plan;
use crate::sink::{Sink, WriteFault};
use crate::view::{NamesView, PlanNames, PlanView};
use arrayvec::ArrayVec;
use itoa::Buffer;

/// How many rules a statement takes that has such a command.
fn rules_of(command: Option<&[u8]>) -> usize
    ensures count { result ≡ rule_count (made_by (option_map (λ text. text.now) command.entry)) }
    ensures at_most { result ≤ 1 }
{
    match command {
        Some(_) => 1,
        None => 0,
    }
}

impl<'a, W: Sink> Block<'a, W> {
    fn put_names<'n, N: NamesView<'n>>(&mut self, names: &N)
        ensures { Puts W.seen self.old self.new (names_text (N.names names.now)) }
    {
        for place in 0..names.len() {
            self.put(b" ");
            self.put_escaped(names.name(place), Escapes::InName);
        }
    }

    fn put_marked<'n, N: NamesView<'n>>(&mut self, mark: &[u8], names: &N)
        ensures { Puts W.seen self.old self.new (marked_text mark.now (N.names names.now)) }
    {
        let count = names.len();
        if count > 0 {
            self.put(mark);
            self.put_names(names);
        }
    }

    /// A leading space would be lost after the `=` of its line, so that it stands after a dollar.
    fn put_lead(&mut self, command: &[u8])
        ensures { Puts W.seen self.old self.new (lead_text command.now) }
    {
        if let [b' ', ..] = command {
            self.put(b"$");
        }
    }

    fn put_command(&mut self, command: &[u8])
        ensures { Puts W.seen self.old self.new (command_text command.now) }
    {
        self.put_lead(command);
        self.put_escaped(command, Escapes::InCommand);
    }

    /// The rule of a command, if there is one, by the digits of its number.
    fn put_rule(&mut self, digits: &[u8], command: Option<&[u8]>)
        ensures { (number : ℕ) → digits.now ≡ number_text number → Puts W.seen self.old self.new
            (rule_text number (made_by (option_map (λ text. text.now) command.entry))) }
    {
        if let Some(command) = command {
            self.put(b"rule r");
            self.put(digits);
            self.put(b"\n command = ");
            self.put_command(command);
            self.put(b"\n");
        }
    }

    fn put_rule_name(&mut self, digits: &[u8], command: Option<&[u8]>)
        ensures { (number : ℕ) → digits.now ≡ number_text number → Puts W.seen self.old self.new
            (rule_name_text number (made_by (option_map (λ text. text.now) command.entry))) }
    {
        match command {
            Some(_) => {
                self.put(b"r");
                self.put(digits);
            }
            None => self.put(b"phony"),
        }
    }

    fn put_build<'v, V: PlanView<'v>>(
        &mut self,
        digits: &[u8],
        command: Option<&[u8]>,
        view: &'v V,
        statement: usize,
    )
        requires { made_by (option_map (λ text. text.now) command)
            ≡ made_at (slice_get (V.plan view.now).statements statement) }
        ensures { (number : ℕ) → digits.now ≡ number_text number → (s : StatementSeen)
            → slice_get (V.plan view.now).statements statement ≡ Some s
            → Puts W.seen self.old self.new (build_text number s) }
    {
        self.put(b"build");
        self.put_names(&view.names(PlanNames::Outputs(statement)));
        self.put(b": ");
        self.put_rule_name(digits, command);
        self.put_names(&view.names(PlanNames::Inputs(statement)));
        self.put_marked(b" |", &view.names(PlanNames::Implicit(statement)));
        self.put_marked(b" ||", &view.names(PlanNames::OrderOnly(statement)));
        self.put(b"\n");
    }

    /// A statement, by its command: the number of its rule is made into digits once.
    fn put_statement<'v, V: PlanView<'v>>(
        &mut self,
        number: usize,
        command: Option<&[u8]>,
        view: &'v V,
        statement: usize,
    )
        requires { made_by (option_map (λ text. text.now) command)
            ≡ made_at (slice_get (V.plan view.now).statements statement) }
        ensures { (s : StatementSeen) → slice_get (V.plan view.now).statements statement ≡ Some s
            → Puts W.seen self.old self.new (statement_text number s) }
    {
        let mut buffer = Buffer::new();
        let digits = buffer.format(number).as_bytes();
        self.put_rule(digits, command);
        self.put_build(digits, command, view, statement);
    }

    fn put_statements<'v, V: PlanView<'v>>(&mut self, view: &'v V)
        ensures { Puts W.seen self.old self.new (statements_text 0 (V.plan view.now).statements) }
    {
        let mut number = 0;
        for statement in 0..view.statement_count() {
            let command = view.command(statement);
            self.put_statement(number, command, view, statement);
            number += rules_of(command);
        }
    }

    fn put_defaults<'v, V: PlanView<'v>>(&mut self, view: &'v V)
        ensures { Puts W.seen self.old self.new (defaults_text (V.plan view.now).defaults) }
    {
        let defaults = view.names(PlanNames::Defaults);
        let count = defaults.len();
        if count > 0 {
            self.put(b"default");
            self.put_names(&defaults);
            self.put(b"\n");
        }
    }

    fn put_plan<'v, V: PlanView<'v>>(&mut self, view: &'v V)
        ensures { Puts W.seen self.old self.new (plan_text (V.plan view.now)) }
    {
        self.put(b"# kati\n");
        self.put_statements(view);
        self.put_defaults(view);
    }
}

/// Prints the plan, and returns whether a write failed.
fn print<'v, V: PlanView<'v>, W: Sink>(view: &'v V, sink: &mut W) -> bool
    ensures { Prints W.seen sink.old sink.new result (plan_text (V.plan view.now)) }
{
    let mut block = Block {
        sink,
        waiting: ArrayVec::new(),
        failed: false,
    };
    block.put_plan(view);
    block.flush();
    let Block {
        sink,
        waiting: _,
        failed,
    } = block;
    // A read ties the sink's last value to the block's, for the proof.
    let _ = &*sink;
    failed
}

/// Writes the plan that a view shows as a Ninja file (Ninja manual, "Ninja file reference"), statements in the plan's
/// order, through a block of 4,096 bytes that the sink gets when it is full and at the end. Takes no memory.
///
/// After a fault the sink has taken a prefix of the text.
pub fn write_view<'v, V: PlanView<'v>, W: Sink>(view: &'v V, sink: &mut W) -> Result<(), WriteFault>
    requires { IsWritable (V.plan view.now) }
    ensures ok { OnOk result (Takes (W.seen sink.old) (W.seen sink.new) (plan_text (V.plan view.now))) }
    ensures fault { OnErr result (GrowsByFront (W.seen sink.old) (W.seen sink.new) (plan_text (V.plan view.now))) }
    ensures counts { (W.seen sink.old).failed ≤ (W.seen sink.new).failed }
    ensures failed { OnErr result (Rises (W.seen sink.old).failed (W.seen sink.new).failed) }
    ensures steady { OnOk result ((W.seen sink.new).failed ≡ (W.seen sink.old).failed) }
{
    if print(view, sink) {
        Err(WriteFault)
    } else {
        Ok(())
    }
}

/// Writes the plan, as `write_view` does.
pub fn write_plan<W: Sink>(plan: &Plan, sink: &mut W) -> Result<(), WriteFault>
    requires { IsWritable plan.now }
    ensures ok { OnOk result (Takes (W.seen sink.old) (W.seen sink.new) (plan_text plan.now)) }
    ensures fault { OnErr result (GrowsByFront (W.seen sink.old) (W.seen sink.new) (plan_text plan.now)) }
    ensures counts { (W.seen sink.old).failed ≤ (W.seen sink.new).failed }
    ensures failed { OnErr result (Rises (W.seen sink.old).failed (W.seen sink.new).failed) }
    ensures steady { OnOk result ((W.seen sink.new).failed ≡ (W.seen sink.old).failed) }
{
    write_view(plan, sink)
}
