//! What a kind of line is.

/// How an assignment assigns.
#[derive(Clone, Copy, Debug, PartialEq, Eq)]
pub enum Operator {
    /// `=`
    Deferred,
    /// `:=` and `::=`
    Immediate,
    /// `:::=`
    Escaped,
    /// `?=`
    Conditional,
    /// `+=`
    Append,
    /// `!=`
    Shell,
}

/// The first word of a line that is neither blank nor an assignment.
#[derive(Clone, Copy, Debug, PartialEq, Eq)]
pub enum Directive {
    Ifdef,
    Ifndef,
    Ifeq,
    Ifneq,
    Else,
    Endif,
    Define,
    Endef,
    /// `include`
    Include,
    /// `-include` and `sinclude`
    OptionalInclude,
}

/// The kind of a line, with its parts as they stand in its text; the last of them keeps its comment.
#[derive(Clone, Copy, Debug, PartialEq, Eq)]
pub enum Form<'a> {
    /// Nothing but blanks before the comment.
    Blank,
    /// Name, operator, and the value from its first byte that is no blank on.
    Assignment(&'a [u8], Operator, &'a [u8]),
    /// A directive, and what follows it from the first byte that is no blank on.
    Directive(Directive, &'a [u8]),
    /// A form that is refused, by its first word.
    Refused(&'a [u8]),
    /// A rule line.
    Rule,
}
