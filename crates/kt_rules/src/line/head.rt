//! The expanded head of a rule line, cut into its parts.
ghost use Rattle.std.specs.Prelude.{◌≡◌, List, ℕ, option_map};
ghost use Rattle.kt_rules.specs.Names.{written_words};
ghost use Rattle.kt_rules.specs.RuleLine.{after_double, colon_cut, group_head, group_targets, head_after, head_of};
ghost use Rattle.kt_rules.specs.RuleLine.{head_round, pattern_word};
ghost use Rattle.kt_rules.specs.inner.Heads.{heads_view};

use crate::line::cutting::{colon_cut, later_cut};
use crate::line::written::{first_word, without_outer_separators};
use crate::refusal::Refusal;
use kt_text::has_percent;

/// The separator between the targets of a rule line and the prerequisites.
#[derive(Clone, Copy, Debug, PartialEq, Eq)]
pub enum Separator {
    /// `:`
    Single,
    /// `::`
    Double,
    /// `&:`
    Grouped,
}

/// The parts of a head, as they are written.
#[derive(Clone, Copy)]
pub(crate) struct Head<'a> {
    pub(crate) separator: Separator,
    pub(crate) targets: &'a [u8],
    /// The target pattern of a static pattern rule.
    pub(crate) pattern: Option<&'a [u8]>,
    pub(crate) needs: &'a [u8],
}

// The parts of a head, or why it is refused.
#[tactic(auto, unfolding(crate::specs::RuleLine::head_of))]
pub(crate) fn cut_head(text: &[u8]) -> Result<Head<'_>, Refusal<'_>>
    ensures { heads_view result ≡ head_of text.now }
{
    match colon_cut(text) {
        None => Err(Refusal::MissingSeparator),
        Some((before, after)) => head_round(before, after),
    }
}

// The parts of a head, from the text before its first colon and the text after it.
fn head_round<'a>(before: &'a [u8], after: &'a [u8]) -> Result<Head<'a>, Refusal<'a>>
    ensures { heads_view result ≡ head_round before.now after.now }
{
    match (group_targets(before), after_double(after)) {
        (None, None) => head_after(Separator::Single, before, after),
        (None, Some(rest)) => head_after(Separator::Double, before, rest),
        (Some(targets), None) => group_head(targets, after),
        (Some(_), Some(_)) => Err(Refusal::BadGroup),
    }
}

// The targets of a group: the text before the `&`.
#[tactic(auto, unfolding(crate::specs::RuleLine::group_targets))]
pub(crate) fn group_targets(before: &[u8]) -> Option<&[u8]>
    ensures { option_map (λ targets. targets.now) result ≡ group_targets before.now }
{
    if before.ends_with(b"&") {
        Some(&before[..before.len() - 1])
    } else {
        None
    }
}

// The text after the second of two colons.
#[tactic(auto, unfolding(crate::specs::RuleLine::after_double))]
fn after_double(after: &[u8]) -> Option<&[u8]>
    ensures { option_map (λ rest. rest.now) result ≡ after_double after.now }
{
    if after.starts_with(b":") {
        Some(&after[1..])
    } else {
        None
    }
}

// The parts of a group's head, in which no further colon is allowed.
fn group_head<'a>(targets: &'a [u8], rest: &'a [u8]) -> Result<Head<'a>, Refusal<'a>>
    ensures { heads_view result ≡ group_head targets.now rest.now }
{
    if later_cut(rest).is_some() {
        return Err(Refusal::BadGroup);
    }
    Ok(Head {
        separator: Separator::Grouped,
        targets,
        pattern: None,
        needs: rest,
    })
}

// The parts of a head, from the text after the separator: with one more colon it is a static pattern rule.
fn head_after<'a>(
    separator: Separator,
    targets: &'a [u8],
    rest: &'a [u8],
) -> Result<Head<'a>, Refusal<'a>>
    ensures { heads_view result ≡ head_after separator targets.now rest.now (colon_cut rest.now) }
{
    let Some((part, needs)) = later_cut(rest) else {
        return Ok(Head {
            separator,
            targets,
            pattern: None,
            needs: rest,
        });
    };
    if later_cut(needs).is_some() {
        return Err(Refusal::MissingSeparator);
    }
    match pattern_word(part) {
        None => Err(Refusal::BadStaticPattern(without_outer_separators(part))),
        Some(word) => Ok(Head {
            separator,
            targets,
            pattern: Some(word),
            needs,
        }),
    }
}

// The target pattern of a static pattern rule: the only word of its part, with a percent sign.
fn pattern_word(part: &[u8]) -> Option<&[u8]>
    ensures { option_map (λ word. word.now) result ≡ pattern_word (written_words part.now) }
{
    let (word, after) = first_word(part)?;
    match first_word(after) {
        None if has_percent(word) => Some(word),
        _ => None,
    }
}
