//! Functions applied to their arguments.
ghost use Rattle.std.specs.Prelude.{◌≡◌, ◌==◌, [], map, option_map, true};
ghost use Rattle.kt_text.specs.Words.{words_of};
ghost use Rattle.kt_eval.specs.inner.Doing.{Does};
ghost use Rattle.kt_eval.specs.views.Outcome.{Gives, IfCut, Blames};
ghost use Rattle.kt_eval.specs.Outcome.{left_of};
ghost use Rattle.kt_eval.specs.files.Files.{AgreeWith, Store};
ghost use Rattle.kt_eval.specs.inner.Evaluation.{GoesOn, Keeps, files_of};
ghost use Rattle.kt_eval.specs.expanding.Levels.{evaluator};
ghost use Rattle.kt_eval.specs.expanding.Expansion.{apply, apply_and, apply_call, apply_error, apply_eval};
ghost use Rattle.kt_eval.specs.expanding.Expansion.{apply_foreach, apply_if, apply_info, apply_or, apply_text};
ghost use Rattle.kt_eval.specs.expanding.Expansion.{apply_value, apply_warning, call_by_name, called, each_argument};
ghost use Rattle.kt_eval.specs.expanding.Expansion.{each_word, expanded};

use crate::evaluation::Evaluation;
use crate::expanding::calls::is_function_name;
use crate::expanding::function::Function;
use crate::expanding::text_functions::text_result;
use crate::files::Files;
use crate::macros::scope::MacroScope;
use crate::state::Frame;
use crate::stop::Stop;
use crate::value::Value;
use kt_list::Sequence;
use kt_rules::FaultKind;
use kt_text::functions::TextFunction;
use kt_text::{stripped, words};

impl<'a, M: MacroScope, F: Files> Evaluation<'a, M, F> {
    // Applies a function. The contract lists the parts of `Does`: no lemma can name the arms, so the search closes them
    // alone.
    #[cycle(evaluate)]
    #[tactic(auto, using(crate::proofs::Steps::apply_goes), unfolding(crate::specs::expanding::Expansion::apply))]
    pub(crate) fn apply(
        &mut self,
        below: u64,
        function: Function,
        arguments: &[&[u8]],
    ) -> Result<Vec<u8>, Stop>
        ensures gives { (store : Store) → AgreeWith store self.new.answers → Gives (λ v. v.items) result self.new.world
            (apply (evaluator M.writable store below) function (map (λ a. a.now) arguments.now)
            self.old.world) }
        ensures cut { (store : Store) → AgreeWith store self.new.answers → IfCut result (GoesOn self.new.world (left_of
            (apply (evaluator M.writable store below) function (map (λ a. a.now) arguments.now)
            self.old.world))) }
        ensures kept { Keeps self.old self.new }
        ensures blames { Blames result (files_of self.old) (files_of self.new) }
    {
        match function {
            Function::Text(text_function) => self.apply_text(below, text_function, arguments),
            Function::If => match arguments {
                [condition, chosen] => self.apply_if(below, condition, chosen, None),
                [condition, chosen, other] => {
                    self.apply_if(below, condition, chosen, Some(other))
                }
                _ => self.bad_argument(b"if"),
            },
            Function::Or => self.apply_or(below, arguments),
            Function::And => self.apply_and(below, arguments),
            Function::Foreach => match arguments {
                [variable, list, body] => self.apply_foreach(below, variable, list, body),
                _ => self.bad_argument(b"foreach"),
            },
            Function::Call => self.apply_call(below, arguments),
            Function::Value => match arguments {
                [text] => self.apply_value(below, text),
                _ => self.bad_argument(b"value"),
            },
            Function::Eval => match arguments {
                [text] => self.apply_eval(below, text),
                _ => self.bad_argument(b"eval"),
            },
            Function::Error => match arguments {
                [text] => self.apply_error(below, text),
                _ => self.bad_argument(b"error"),
            },
            Function::Warning => match arguments {
                [text] => self.apply_warning(below, text),
                _ => self.bad_argument(b"warning"),
            },
            Function::Info => match arguments {
                [text] => self.apply_info(below, text),
                _ => self.bad_argument(b"info"),
            },
        }
    }

    // A text function. Too few arguments are refused before any of them is expanded.
    #[cycle(evaluate)]
    #[tactic(auto, using(crate::proofs::Steps::accepted_goes), unfolding(crate::proofs::Common::apply_text))]
    pub(crate) fn apply_text(
        &mut self,
        below: u64,
        function: TextFunction,
        texts: &[&[u8]],
    ) -> Result<Vec<u8>, Stop>
        ensures { Does (λ v. v.items) M.writable below
            (λ e. apply_text e function (map (λ a. a.now) texts.now)) result self.old self.new }
    {
        if texts.len() != function.arity() {
            return self.bad_argument(function.name());
        }
        let arguments = self.each_argument(below, Vec::new(self.alloc), texts)?;
        let outcome = text_result(self.alloc, function, &arguments);
        self.accept(function.name(), outcome)
    }

    // Expands each argument in turn, and adds it to those given.
    #[cycle(evaluate)]
    #[tactic(auto, using(crate::proofs::Steps::each_argument_goes), unfolding(crate::proofs::Common::each_argument))]
    pub(crate) fn each_argument(
        &mut self,
        below: u64,
        first: Vec<Value>,
        texts: &[&[u8]],
    ) -> Result<Vec<Value>, Stop>
        ensures { Does (λ v. v.items) M.writable below
            (λ e. each_argument e first.items (map (λ a. a.now) texts.now)) result self.old self.new }
    {
        let mut out = first;
        let mut place = 0;
        'arguments: while place < texts.len() {
            let x = self.expand(below, texts[place])?;
            out.push(Value::from_vec(x)?)?;
            place += 1;
        }
        Ok(out)
    }

    #[cycle(evaluate)]
    #[tactic(auto, using(crate::proofs::Steps::expand_goes), unfolding(crate::specs::expanding::Expansion::apply_if))]
    pub(crate) fn apply_if(
        &mut self,
        below: u64,
        condition: &[u8],
        chosen: &[u8],
        other: Option<&[u8]>,
    ) -> Result<Vec<u8>, Stop>
        ensures { Does (λ v. v.items) M.writable below
            (λ e. apply_if e condition.now chosen.now (option_map (λ t. t.now) other.entry)) result self.old self.new }
    {
        let x = self.expand(below, stripped(condition))?;
        if !x.is_empty() {
            return self.expand(below, chosen);
        }
        match other {
            None => Ok(Vec::new(self.alloc)),
            Some(text) => self.expand(below, text),
        }
    }

    #[cycle(evaluate)]
    #[tactic(auto, using(crate::proofs::Steps::apply_or_goes), unfolding(crate::specs::expanding::Expansion::apply_or))]
    pub(crate) fn apply_or(&mut self, below: u64, texts: &[&[u8]]) -> Result<Vec<u8>, Stop>
        ensures { Does (λ v. v.items) M.writable below
            (λ e. apply_or e (map (λ a. a.now) texts.now)) result self.old self.new }
    {
        let mut place = 0;
        'arguments: while place < texts.len() {
            let x = self.expand(below, stripped(texts[place]))?;
            if !x.is_empty() {
                return Ok(x);
            }
            place += 1;
        }
        Ok(Vec::new(self.alloc))
    }

    #[cycle(evaluate)]
    #[tactic(auto, using(crate::proofs::Steps::apply_and_goes), unfolding(crate::proofs::Common::apply_and))]
    pub(crate) fn apply_and(&mut self, below: u64, texts: &[&[u8]]) -> Result<Vec<u8>, Stop>
        ensures { Does (λ v. v.items) M.writable below
            (λ e. apply_and e (map (λ a. a.now) texts.now)) result self.old self.new }
    {
        let mut place = 0;
        'arguments: while place < texts.len() {
            let x = self.expand(below, stripped(texts[place]))?;
            place += 1;
            if x.is_empty() || place == texts.len() {
                return Ok(x);
            }
        }
        Ok(Vec::new(self.alloc))
    }

    #[cycle(evaluate)]
    #[tactic(auto, using(crate::proofs::Steps::apply_foreach_steps), unfolding(crate::proofs::Common::apply_foreach))]
    pub(crate) fn apply_foreach(
        &mut self,
        below: u64,
        variable: &[u8],
        list: &[u8],
        body: &[u8],
    ) -> Result<Vec<u8>, Stop>
        ensures { Does (λ v. v.items) M.writable below
            (λ e. apply_foreach e variable.now list.now body.now) result self.old self.new }
    {
        let expanded = self.expand(below, variable)?;
        let list = self.expand(below, list)?;
        let name = Value::copied(self.alloc, stripped(&expanded))?;
        self.each_word(below, &name, &list, body)
    }

    // Expands the body for each word in turn.
    #[cycle(evaluate)]
    #[tactic(auto, using(crate::proofs::Steps::each_word_goes), unfolding(crate::proofs::Common::each_word))]
    pub(crate) fn each_word(
        &mut self,
        below: u64,
        name: &Value,
        list: &[u8],
        body: &[u8],
    ) -> Result<Vec<u8>, Stop>
        ensures { Does (λ v. v.items) M.writable below
            (λ e. each_word e name.now body.now [] [] (words_of list.now)) result self.old self.new }
    {
        let mut out = Vec::new(self.alloc);
        let mut separator: &[u8] = b"";
        let mut rest = words(list);
        'words: while let Some(word) = rest.next() {
            let word = Value::copied(self.alloc, word)?;
            self.bind(Frame::Loop(name.share()?, word))?;
            let x = self.expand(below, body)?;
            self.unbind();
            out.extend_from_slice(separator)?;
            out.extend_from_slice(&x)?;
            separator = b" ";
        }
        Ok(out)
    }

    #[cycle(evaluate)]
    #[tactic(auto, using(crate::proofs::Steps::call_by_name_goes), unfolding(crate::proofs::Common::apply_call))]
    pub(crate) fn apply_call(&mut self, below: u64, texts: &[&[u8]]) -> Result<Vec<u8>, Stop>
        ensures { Does (λ v. v.items) M.writable below
            (λ e. apply_call e (map (λ a. a.now) texts.now)) result self.old self.new }
    {
        let Some((text, others)) = texts.split_first() else {
            return Ok(Vec::new(self.alloc));
        };
        let x = self.expand(below, text)?;
        self.call_by_name(below, stripped(&x), others)
    }

    #[cycle(evaluate)]
    #[tactic(auto, using(crate::proofs::Steps::call_by_name_steps), unfolding(crate::proofs::Common::call_by_name))]
    pub(crate) fn call_by_name(
        &mut self,
        below: u64,
        name: &[u8],
        texts: &[&[u8]],
    ) -> Result<Vec<u8>, Stop>
        ensures { Does (λ v. v.items) M.writable below
            (λ e. call_by_name e name.now (map (λ a. a.now) texts.now)) result self.old self.new }
    {
        if is_function_name(name) {
            return Err(Stop::Fault(self.fault(FaultKind::RefusedFunction, name)?));
        }
        let mut first = Vec::new(self.alloc);
        first.push(Value::copied(self.alloc, name)?)?;
        let arguments = self.each_argument(below, first, texts)?;
        self.call(below, name, arguments)
    }

    // The expanded value of a macro, with its name and arguments bound.
    #[cycle(evaluate)]
    #[tactic(auto, using(crate::proofs::Steps::call_steps), unfolding(crate::specs::expanding::Expansion::called))]
    pub(crate) fn call(
        &mut self,
        below: u64,
        name: &[u8],
        arguments: Vec<Value>,
    ) -> Result<Vec<u8>, Stop>
        ensures { Does (λ v. v.items) M.writable below
            (λ e. called e name.now arguments.items) result self.old self.new }
    {
        self.bind(Frame::Call(Sequence::from(arguments)))?;
        let x = self.value_of(below, name)?;
        self.unbind();
        Ok(x)
    }

    #[cycle(evaluate)]
    #[tactic(auto, unfolding(crate::specs::expanding::Expansion::apply_value))]
    pub(crate) fn apply_value(&mut self, below: u64, text: &[u8]) -> Result<Vec<u8>, Stop>
        ensures { Does (λ v. v.items) M.writable below (λ e. apply_value e text.now) result self.old self.new }
    {
        let name = self.expand(below, text)?;
        match self.lookup(&name)? {
            None => Ok(Vec::new(self.alloc)),
            Some(found) => Ok(Vec::from_slice(self.alloc, found.value.as_slice())?),
        }
    }

    #[cycle(evaluate)]
    #[tactic(auto, using(crate::proofs::Steps::apply_eval_steps), unfolding(crate::proofs::Common::apply_eval))]
    pub(crate) fn apply_eval(&mut self, below: u64, text: &[u8]) -> Result<Vec<u8>, Stop>
        ensures { Does (λ v. v.items) M.writable below (λ e. apply_eval e text.now) result self.old self.new }
    {
        if !self.is_writable() {
            return Err(Stop::Fault(self.fault(FaultKind::EvalInRecipe, b"")?));
        }
        let x = self.expand(below, text)?;
        self.eval(below, &x)?;
        Ok(Vec::new(self.alloc))
    }

    #[cycle(evaluate)]
    #[tactic(auto, unfolding(crate::specs::expanding::Expansion::apply_error))]
    pub(crate) fn apply_error(&mut self, below: u64, text: &[u8]) -> Result<Vec<u8>, Stop>
        ensures { Does (λ v. v.items) M.writable below (λ e. apply_error e text.now) result self.old self.new }
    {
        let x = self.expand(below, text)?;
        Err(Stop::Fault(self.fault(FaultKind::ErrorCalled, &x)?))
    }

    #[cycle(evaluate)]
    #[tactic(auto, using(crate::proofs::Steps::said_steps), unfolding(crate::proofs::Common::apply_warning))]
    pub(crate) fn apply_warning(&mut self, below: u64, text: &[u8]) -> Result<Vec<u8>, Stop>
        ensures { Does (λ v. v.items) M.writable below (λ e. apply_warning e text.now) result self.old self.new }
    {
        let x = self.expand(below, text)?;
        self.warn(&x)?;
        Ok(Vec::new(self.alloc))
    }

    #[cycle(evaluate)]
    #[tactic(auto, using(crate::proofs::Steps::said_steps), unfolding(crate::specs::expanding::Expansion::apply_info))]
    pub(crate) fn apply_info(&mut self, below: u64, text: &[u8]) -> Result<Vec<u8>, Stop>
        ensures { Does (λ v. v.items) M.writable below (λ e. apply_info e text.now) result self.old self.new }
    {
        let x = self.expand(below, text)?;
        self.say(x)?;
        Ok(Vec::new(self.alloc))
    }

    // Reads the text of an `eval`.
    #[cycle(evaluate)]
    #[tactic(auto, using(crate::proofs::LevelLemmas::evaluator_above), unfolding(crate::proofs::LevelLemmas::opened))]
    pub(crate) fn eval(&mut self, levels: u64, text: &[u8]) -> Result<(), Stop>
        requires { M.writable ≡ true }
        ensures { Does (λ u. u) M.writable levels (λ e. e.eval text.now) result self.old self.new }
    {
        if levels == 0 {
            return Err(Stop::Fault(self.fault(FaultKind::NestingTooDeep, b"")?));
        }
        self.read_held(levels - 1, text)
    }
}
