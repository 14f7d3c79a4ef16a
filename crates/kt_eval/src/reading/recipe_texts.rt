//! The texts of recipe lines, of which equal ones are held once.
//! Fast: rules with the same recipe, one after the other, hold the texts of its lines together. Spares a text a line.
ghost use Rattle.std.specs.Prelude.{◌≡◌, option_map, IfOk, IfSome};
ghost use Rattle.std.specs.Cow.{cow_slice_items};
ghost use Rattle.kt_syntax.specs.Recipes.{recipe_of};

use kt_list::Shared;
use kt_syntax::recipe_text;
use std::alloc::{AllocError, Global};
use std::borrow::CowSlice;

// So many lines of a recipe are remembered.
const REMEMBERED: usize = 64;

/// The last text of each line of a recipe, by the line's number: rules that are written alike hold the texts of their
/// lines together.
#[derive(Drop)]
pub(crate) struct RecipeTexts {
    alloc: Global,
    last: Vec<Shared<u8>>,
}

impl RecipeTexts {
    pub(crate) fn new(alloc: Global) -> RecipeTexts {
        RecipeTexts {
            alloc,
            last: Vec::new(alloc),
        }
    }

    // The text of the recipe on the rule line itself, if there is one.
    pub(crate) fn first_text(
        &mut self,
        line: Option<&[u8]>,
    ) -> Result<Option<Shared<u8>>, AllocError>
        ensures { IfOk result (λ text. text ≡ option_map recipe_of (option_map (λ line. line.now) line.entry)) }
    {
        match line {
            Some(line) => Ok(Some(self.text(0, line)?)),
            None => Ok(None),
        }
    }

    // The text of the line of a recipe that has this number, counted from 0.
    pub(crate) fn text(&mut self, number: usize, line: &[u8]) -> Result<Shared<u8>, AllocError>
        ensures { IfOk result (λ text. text ≡ recipe_of line.now) }
    {
        let text = recipe_text(self.alloc, line)?;
        match self.remembered(number, text.as_slice()) {
            Some(last) => last.share(),
            None => self.remember(number, text),
        }
    }

    // The last text of the line with this number, if it is this one.
    fn remembered(&self, number: usize, text: &[u8]) -> Option<&Shared<u8>>
        ensures quick { IfSome result (λ last. last.now ≡ text.now) }
    {
        let last = self.last.get(number)?;
        if last.as_slice() == text {
            Some(last)
        } else {
            None
        }
    }

    // Remembers the text of the line with this number, and returns it.
    fn remember(&mut self, number: usize, text: CowSlice<'_, u8>) -> Result<Shared<u8>, AllocError>
        ensures { IfOk result (λ held. held ≡ cow_slice_items text.entry) }
    {
        let held = Shared::from_vec(into_vec(self.alloc, text)?)?;
        if number < self.last.len() {
            self.last[number] = held.share()?;
        } else if number < REMEMBERED {
            self.last.push(held.share()?)?;
        }
        Ok(held)
    }
}

fn into_vec(alloc: Global, text: CowSlice<'_, u8>) -> Result<Vec<u8>, AllocError>
    ensures { IfOk result (λ bytes. bytes.items ≡ cow_slice_items text.entry) }
{
    match text {
        CowSlice::Borrowed(bytes) => Vec::from_slice(alloc, bytes),
        CowSlice::Owned(bytes) => Ok(bytes),
    }
}
