//! Texts taken apart.
ghost use Rattle.std.specs.Prelude.{◌≡◌, [], ◌∷◌, MatchOption};

// The first byte, and what stands after it.
pub(crate) fn first_byte(text: &[u8]) -> Option<(u8, &[u8])>
    ensures { MatchOption result (text.now ≡ []) (λ cut. text.now ≡ cut.0 ∷ cut.1.now) }
{
    match text.split_first() {
        Some((byte, after)) => Some((*byte, after)),
        None => None,
    }
}
