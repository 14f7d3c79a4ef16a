//! What the names of automatic macros ask for.
ghost use Rattle.std.specs.Prelude.{◌≡◌};
ghost use Rattle.kt_recipe.specs.inner.Asking.{letter_part, parted, subject_and_part, subject_of};
ghost use Rattle.kt_recipe.specs.Automatic.{has_parts};

use crate::forms::NamePart;

/// Which names an automatic macro lists (GNU make manual, "Automatic Variables").
#[derive(Clone, Copy)]
pub(crate) enum Subject {
    /// `$@`
    Target,
    /// `$<`
    First,
    /// `$^`, and also `$?`: files aren't looked at, so all prerequisites count as newer.
    Each,
    /// `$+`
    Every,
    /// `$|`
    OrderOnly,
    /// `$*`
    Stem,
    /// `$%`, which is always empty: no target is an archive member.
    Member,
}

/// The subject and form of the automatic macro with this name, if there is one.
#[tactic(auto, unfolding(crate::specs::inner::Asking::subject_and_part))]
pub(crate) fn asked_by(name: &[u8]) -> Option<(Subject, NamePart)>
    ensures { result ≡ subject_and_part name.now }
{
    match name {
        [mark] => Some((subject_of(*mark)?, NamePart::Whole)),
        [mark, letter] => parted(subject_of(*mark)?, *letter),
        _ => None,
    }
}

// The subject and form of a mark with a letter after it.
fn parted(subject: Subject, letter: u8) -> Option<(Subject, NamePart)>
    ensures { result ≡ parted subject letter }
{
    if has_parts(subject) {
        Some((subject, form_of(letter)?))
    } else {
        None
    }
}

#[tactic(auto, unfolding(crate::specs::inner::Asking::subject_of))]
fn subject_of(mark: u8) -> Option<Subject>
    ensures { result ≡ subject_of mark }
{
    match mark {
        b'@' => Some(Subject::Target),
        b'<' => Some(Subject::First),
        b'^' => Some(Subject::Each),
        b'?' => Some(Subject::Each),
        b'+' => Some(Subject::Every),
        b'|' => Some(Subject::OrderOnly),
        b'*' => Some(Subject::Stem),
        b'%' => Some(Subject::Member),
        _ => None,
    }
}

fn has_parts(subject: Subject) -> bool
    ensures { result ≡ has_parts subject }
{
    !matches!(subject, Subject::OrderOnly | Subject::Member)
}

fn form_of(letter: u8) -> Option<NamePart>
    ensures { result ≡ letter_part letter }
{
    match letter {
        b'D' => Some(NamePart::Directory),
        b'F' => Some(NamePart::File),
        _ => None,
    }
}
