//! Texts that are one reference, whose value is known without a text of its own.
//! Fast: a reference is compared with a text where its value lies. Spares two allocations a test.
ghost use Rattle.std.specs.Prelude.{◌≡◌, [], ◌∷◌, Bool, bytes_eq, option_map, true, IfSome, None};
ghost use Rattle.kt_syntax.specs.Terms.{reference, terms_of};
ghost use Rattle.kt_syntax.specs.declared.term.Mark.{Mark};
ghost use Rattle.kt_eval.specs.State.{lookup};
ghost use Rattle.kt_eval.specs.Outcome.{Gave};
ghost use Rattle.kt_eval.specs.expanding.Levels.{evaluator};
ghost use Rattle.kt_eval.specs.files.Files.{Store};
ghost use Rattle.kt_eval.specs.inner.Plain.{put_of, still_deferred};
ghost use Rattle.kt_eval.specs.views.expanding.Calls.{names_plainly};
ghost use Rattle.kt_eval.specs.inner.Views.{compared_view};
ghost use Rattle.kt_eval.specs.reading.Conditionals.{are_equal};

use crate::evaluation::Evaluation;
use crate::expanding::calls::names_plainly;
use crate::files::Files;
use crate::macros::scope::MacroScope;
use crate::macros::{has_dollar, is_plain};
use crate::reading::conditions::ComparedTexts;
use crate::state::FoundValue;
use kt_syntax::{Term, terms};

// The name of a macro, if the text is just a reference to it.
fn sole_name(text: &[u8]) -> Option<&[u8]>
    ensures quick { IfSome result (λ name. (mark : Mark) × (terms_of text.now ≡ reference mark name.now ∷ [])
        × (names_plainly mark name.now ≡ true)) }
{
    let mut pieces = terms(text);
    match pieces.next() {
        Some(Ok(Term::Ref(mark, name))) => {
            if pieces.next().is_none() && names_plainly(mark, name) {
                return Some(name);
            }
            None
        }
        _ => None,
    }
}

// Whether what was found for a name is this text; `None` where it has to be expanded first.
#[tactic(auto, unfolding(crate::proofs::Steps::value_open))]
fn is_found(below: u64, found: Option<FoundValue>, text: &[u8]) -> Option<bool>
    ensures quick_plain { IfSome result (λ _. None ≡ still_deferred below found) }
    ensures quick_same { IfSome result (λ same. same ≡ bytes_eq (put_of below found) text.now) }
{
    match found {
        None => Some(text.is_empty()),
        Some(found) => {
            let value = found.value.as_slice();
            if is_plain(below, found.flavour, value) {
                return Some(value == text);
            }
            None
        }
    }
}

impl<'a, M: MacroScope, F: Files> Evaluation<'a, M, F> {
    // Whether the value of a name is this text; `None` where it has to be expanded first, or was refused.
    fn has_value(&self, below: u64, name: &[u8], text: &[u8]) -> Option<bool>
        ensures quick_plain { IfSome result (λ _. None ≡ still_deferred below (lookup name.now self.now.world)) }
        ensures quick_same { IfSome result (λ same. same
            ≡ bytes_eq (put_of below (lookup name.now self.now.world)) text.now) }
    {
        match self.lookup(name) {
            Ok(found) => is_found(below, found, text),
            Err(_) => None,
        }
    }

    // Whether two texts are the same after they are expanded, where the second has no dollar and the first is a
    // reference to a value that needs no expansion; `None` for other texts.
    pub(crate) fn plainly_equal(
        &self,
        below: u64,
        compared: Option<ComparedTexts<'_>>,
    ) -> Option<bool>
        ensures quick { IfSome result (λ same. (reads : Bool) → (store : Store)
            → are_equal (evaluator reads store below) (option_map compared_view compared.entry) self.now.world
            ≡ Gave self.now.world same) }
    {
        let Some(compared) = compared else {
            return None;
        };
        let name = sole_name(compared.first)?;
        if has_dollar(compared.second) {
            return None;
        }
        self.has_value(below, name, compared.second)
    }
}
