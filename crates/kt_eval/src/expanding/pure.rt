//! Expands texts after all reading, such as recipes.
ghost use Rattle.std.specs.Prelude.{◌≡◌, ◌++◌, ◌∷◌, [], OnErr, OnOk, map, string_bytes};
ghost use Rattle.kt_eval.specs.views.expanding.Pure.{Says};
ghost use Rattle.kt_eval.specs.expanding.Pure.{expanded_pure};

use crate::evaluation::Evaluation;
use crate::files::{FileFault, Files};
use crate::macros::Macros;
use crate::macros::automatic::Automatic;
use crate::macros::scope::FrozenMacros;
use crate::reading::recipe_texts::RecipeTexts;
use crate::stop::Stop;
use kt_list::Sequence;
use kt_rules::{Place, RuleReader};
use std::alloc::{AllocError, Global};

impl Macros {
    /// Expands the references in a text of a recipe: no macro is set, so `eval` is refused.
    ///
    /// The text is at level 0. Without a place, as for the goal that a macro names, messages begin with the program's
    /// name. GNU make manual, "How to Use Variables", "Using Variables in Recipes". Messages are appended in order; if
    /// memory runs out, a prefix of them is.
    pub fn expand_pure<A: Automatic>(
        &self,
        text: &[u8],
        automatic: &A,
        place: Option<Place>,
        messages: &mut Vec<Sequence<u8>>,
        limit: u64,
    ) -> Result<Vec<u8>, Stop>
        ensures { Says (λ v. v.items) (expanded_pure self.now (A.values automatic.now) place limit text.now) result
            messages.old.items messages.new.items }
    {
        let alloc = self.alloc;
        let before = std::mem::replace(messages, Vec::new(alloc));
        let mut files = NoFiles {
            alloc,
            asked: Vec::new(alloc),
        };
        let mut evaluation = Evaluation {
            alloc,
            macros: FrozenMacros {
                macros: self,
                automatic,
            },
            frames: Vec::new(alloc),
            messages: before,
            place,
            rule: None,
            reader: RuleReader::new(alloc),
            recipe_texts: RecipeTexts::new(alloc),
            files: &mut files,
        };
        let result = evaluation.expand_here(limit, text);
        let Evaluation {
            alloc: _alloc,
            macros: _macros,
            frames: _frames,
            messages: after,
            place: _place,
            rule: _rule,
            reader: _reader,
            recipe_texts: _recipe_texts,
            files,
        } = evaluation;
        let _ = &*files;
        *messages = after;
        result
    }
}

// The files of a recipe: there are none.
#[derive(Drop)]
struct NoFiles {
    alloc: Global,
    asked: Vec<String>,
}

impl Files for NoFiles {
    ghost use Rattle.std.specs.Prelude.{map, string_bytes};
    ghost use Rattle.kt_eval.specs.inner.Answers.{absent};

    ghost seen = { λ s. record {
      answers = absent (map string_bytes s.asked.items);
      names = map string_bytes s.asked.items;
      failed = 0;
    } };

    fn read(&mut self, name: &str) -> Result<Option<Vec<u8>>, FileFault> {
        match self.note(name) {
            Ok(()) => Ok(None),
            Err(_) => Err(FileFault::Memory),
        }
    }

    fn asked(&self) -> &[String] {
        self.asked.as_slice()
    }

    fn failures(&self) -> u64 {
        0
    }
}

impl NoFiles {
    // Notes that the name was asked for.
    fn note(&mut self, name: &str) -> Result<(), AllocError>
        ensures noted { OnOk result (map string_bytes self.new.asked.items
            ≡ map string_bytes self.old.asked.items ++ name.now ∷ []) }
        ensures refused { OnErr result (map string_bytes self.new.asked.items
            ≡ map string_bytes self.old.asked.items) }
    {
        let name = name.to_string(self.alloc)?;
        self.asked.push(name)?;
        Ok(())
    }
}
