//! Words in byte order.
ghost use Rattle.std.specs.Prelude.{◌≡◌, Some, IfOk};
ghost use Rattle.kt_text.specs.Words.{words_of};
ghost use Rattle.kt_text.specs.views.Functions.{Answers};
ghost use Rattle.kt_text.specs.Functions.{word_set, sort_of};

use crate::cut::words;
use crate::fault::TextFault;
use crate::output::add_word;
use crate::sort_key::SortKey;
use std::alloc::{AllocError, Global};

/// `$(sort LIST)`.
#[tactic(auto, using(crate::proofs::lemmas::ListLemmas::put_words_is), unfolding(crate::specs::Functions::sort_of))]
pub fn sort(alloc: Global, text: &[u8]) -> Result<Vec<u8>, TextFault>
    ensures { Answers result (Some (sort_of text.now)) }
{
    let keys = sorted_keys(alloc, text)?;
    let mut sorted = Vec::with_capacity(alloc, text.len())?;
    for key in &keys {
        add_word(&mut sorted, key.text())?;
    }
    Ok(sorted)
}

// The words in byte order, each once.
fn sorted_keys(alloc: Global, text: &[u8]) -> Result<Vec<SortKey<'_>>, AllocError>
    ensures { IfOk result (λ keys. keys.items ≡ word_set (words_of text.now)) }
{
    let mut keys = Vec::new(alloc);
    for word in words(text) {
        keys.push(SortKey::new(word))?;
    }
    keys.sort_unstable();
    keys.dedup();
    Ok(keys)
}
