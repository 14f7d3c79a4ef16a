//! Single bytes of a text.
ghost use Rattle.std.specs.Prelude.{◌≡◌, ◌==◌};
ghost use Rattle.std.specs.List.{list_any};

/// Whether the byte stands in the text, which is a quick look where the text is short.
pub fn has_byte(text: &[u8], byte: u8) -> bool
    ensures { result ≡ list_any (λ other. other == byte) text.now }
{
    text.contains(&byte)
}
