//! What a term is.
use thiserror::Error;

/// How a reference is spelled.
#[derive(Clone, Copy, Debug, PartialEq, Eq)]
pub enum Mark {
    /// A dollar and one byte.
    Byte,
    /// `$(..)`
    Parentheses,
    /// `${..}`
    Braces,
}

/// A term of a text; its bytes are the text's own.
#[derive(Clone, Copy, Debug, PartialEq, Eq)]
pub enum Term<'a> {
    /// Bytes that stand for themselves. A dollar at the end of the text is one without bytes.
    Lit(&'a [u8]),
    /// `$$`
    Dollar,
    /// A reference, with what stands between its marks.
    Ref(Mark, &'a [u8]),
}

/// A reference without closing mark, which reaches to the end of the text.
#[derive(Clone, Copy, Debug, PartialEq, Eq, Error)]
#[error("unterminated reference")]
pub struct Unterminated;
