//! The lines of a recipe and their pieces.
ghost use Rattle.std.specs.Prelude.{◌≡◌, ◌≤◌, ◌==◌, IfOk, length, map, not};
ghost use Rattle.std.specs.List.{list_any, prefix_len};
ghost use Rattle.kt_recipe.specs.Lines.{after_run, ignores_failure, is_prefix, pieces_of_line, run_of};

use std::alloc::{AllocError, Global};

/// The text after the blanks, `@`, `-` and `+` that a text begins with (GNU make manual, "Recipe Echoing", "Errors in
/// Recipes").
pub(crate) fn after_run(text: &[u8]) -> &[u8]
    ensures { result.now ≡ after_run text.now }
{
    &text[run_len(text)..]
}

/// Whether a failure is ignored: there is a `-` among them (GNU make manual, "Errors in Recipes").
#[tactic(auto, unfolding(crate::specs::Lines::ignores_failure))]
pub(crate) fn is_marked(text: &[u8]) -> bool
    ensures { result ≡ ignores_failure text.now }
{
    run_of(text).iter().any(|byte| *byte == b'-')
}

fn run_of(text: &[u8]) -> &[u8]
    ensures { result.now ≡ run_of text.now }
{
    &text[..run_len(text)]
}

fn run_len(text: &[u8]) -> usize
    ensures value { result ≡ prefix_len is_prefix text.now }
    ensures bound { result ≤ length text.now }
{
    text.iter().take_while(|byte| is_prefix(**byte)).count()
}

#[tactic(auto, unfolding(crate::specs::Lines::is_prefix, kt_text::specs::Words::is_blank))]
fn is_prefix(byte: u8) -> bool
    ensures { result ≡ is_prefix byte }
{
    matches!(byte, b' ' | b'\t' | b'@' | b'-' | b'+')
}

/// Whether a line is one piece: it has no newline.
pub(crate) fn is_one_piece(text: &[u8]) -> bool
    ensures { result ≡ not (list_any (λ byte. byte == 10) text.now) }
{
    !has_newline(text)
}

fn has_newline(text: &[u8]) -> bool
    ensures { result ≡ list_any (λ byte. byte == 10) text.now }
{
    text.iter().any(|byte| *byte == b'\n')
}

/// The pieces of a line, cut at its newlines (GNU make manual, "Defining Canned Recipes").
#[tactic(auto, unfolding(crate::specs::Lines::pieces_of_line))]
pub(crate) fn pieces(alloc: Global, text: &[u8]) -> Result<Vec<&[u8]>, AllocError>
    ensures { IfOk result (λ pieces. map (λ piece. piece.now) pieces.items ≡ pieces_of_line text.now) }
{
    text.split(|byte| *byte == b'\n').collect(alloc)
}
