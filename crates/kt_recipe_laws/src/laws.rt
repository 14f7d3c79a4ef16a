//! Laws of the definitions. These functions do nothing: only their contracts matter.
ghost use Rattle.std.specs.Prelude.{◌≡◌, Some};
ghost use Rattle.std.specs.List.{join_with_byte};
ghost use Rattle.kt_text.specs.Words.{Text};
ghost use Rattle.kt_recipe_laws.specs.Commands.{CommandLaw};
ghost use Rattle.kt_recipe.specs.Lines.{pieces_of_line};
ghost use Rattle.kt_recipe.specs.Quoting.{quoted};
ghost use Rattle.kt_recipe_laws.specs.Quoting.{word_of_quotes};
ghost use Rattle.kt_recipe_laws.specs.Rows.{RowsOfCommands, RowsOfMacros};

/// A shell reads a text between single quotes as that text.
pub fn quotes_are_read_back()
    ensures { (text : Text) → word_of_quotes (quoted text) ≡ Some text }
{}

/// The pieces of a line, joined by newlines, are the line.
pub fn pieces_are_the_line()
    ensures { (text : Text) → join_with_byte 10 (pieces_of_line text) ≡ text }
{}

/// The command of a node is exactly the calls of its pieces, in order and joined by ` && `: each nonempty piece of its
/// expanded lines has one. Without a piece there is no command.
pub fn commands_are_calls()
    ensures { CommandLaw }
{}

/// Worked values of automatic macros.
pub fn rows_of_macros()
    ensures { RowsOfMacros }
{}

/// Worked commands.
pub fn rows_of_commands()
    ensures { RowsOfCommands }
{}
