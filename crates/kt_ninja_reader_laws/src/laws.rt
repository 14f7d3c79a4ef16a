//! Laws of the definitions. These functions do nothing: their contracts are what counts.
ghost use Rattle.std.specs.Prelude.{◌≡◌, Ok};
ghost use Rattle.kt_ninja.specs.declared.plan.Plan.{Plan};
ghost use Rattle.kt_ninja_reader_laws.specs.Continued.{JoinedLaw};
ghost use Rattle.kt_ninja_reader_laws.specs.Layout.{LayoutLaw};
ghost use Rattle.kt_ninja_reader.specs.NinjaRead.{ninja_read};
ghost use Rattle.kt_ninja.specs.Text.{plan_text};
ghost use Rattle.kt_ninja.specs.Writable.{IsWritable};
ghost use Rattle.kt_ninja_reader_laws.specs.Rows.{RowsOfReadFaults, RowsOfPlans};
ghost use Rattle.kt_ninja_reader_laws.specs.Spellings.{PieceLaw};

/// Worked texts that have a reading.
pub fn rows_of_plans()
    ensures { RowsOfPlans }
{}

/// Worked texts that have none.
pub fn rows_of_faults()
    ensures { RowsOfReadFaults }
{}

/// A plan that can be written is what its text says.
pub fn what_is_printed_is_read()
    ensures { (plan : Plan) → IsWritable plan → ninja_read (plan_text plan) ≡ Ok plan }
{}

/// The spellings of a text's pieces put together are the text, and no other pieces have that text.
pub fn law_of_pieces()
    ensures { PieceLaw }
{}

/// Joining the lines of a file takes away exactly its escaped newlines, each with the spaces after it.
pub fn law_of_joined_lines()
    ensures { JoinedLaw }
{}

/// A comment changes nothing of what a file says, wherever it stands, and a blank line between statements neither.
pub fn law_of_layout()
    ensures { LayoutLaw }
{}
