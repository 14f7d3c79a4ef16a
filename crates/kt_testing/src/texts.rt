//! Texts that tests compare.

/// Puts more text after a text. Where memory is refused it comes out short, so that it is none that is wanted.
pub fn put(text: &mut Vec<u8>, more: &[u8]) {
    let _refused = text.extend_from_slice(more);
}
