//! Laws of the definitions. These functions do nothing: their contracts are what counts.
ghost use Rattle.std.specs.Prelude.{◌≡◌, List, Option};
ghost use Rattle.kt_syntax.specs.declared.part.Missing.{Missing};
ghost use Rattle.kt_syntax.specs.declared.role.NumberedRole.{NumberedRole};
ghost use Rattle.kt_syntax_laws.specs.Assignments.{AssignmentLaw};
ghost use Rattle.kt_syntax_laws.specs.BlockRows.{RowsOfBlocks};
ghost use Rattle.kt_syntax.specs.Blocks.{Items, blocks_of, tree_of};
ghost use Rattle.kt_syntax_laws.specs.CommentTexts.{CommentLaw};
ghost use Rattle.kt_syntax_laws.specs.Condensed.{LineLaw, SemicolonLaw};
ghost use Rattle.kt_syntax.specs.views.Grammar.{IsTreeOf};
ghost use Rattle.kt_syntax_laws.specs.Masked.{MaskLaw};
ghost use Rattle.kt_syntax_laws.specs.Modifiers.{ModifierLaw};
ghost use Rattle.kt_syntax_laws.specs.RecipeCuts.{SplicingLaw};
ghost use Rattle.kt_syntax_laws.specs.RecipeTexts.{RecipeLaw};
ghost use Rattle.kt_syntax_laws.specs.Rows.{RowsOfKinds, RowsOfRules, RowsOfTerms, RowsOfTexts};
ghost use Rattle.kt_syntax_laws.specs.Signs.{SignLaw};

/// By the grammar of blocks lines have exactly one tree and one missing end or none: the tree that
/// the steps of their blocks stand for, and the end that is missing there.
pub fn blocks_are_a_tree()
    ensures some { (heads : List NumberedRole) → IsTreeOf (tree_of (blocks_of heads).steps) (blocks_of heads).missing
        heads }
    ensures one { (heads : List NumberedRole) (items : Items) (missing : Option Missing) → IsTreeOf items missing heads
        → (items ≡ tree_of (blocks_of heads).steps) × (missing ≡ (blocks_of heads).missing) }
{}

/// Worked values of blocks.
pub fn rows_of_blocks()
    ensures { RowsOfBlocks }
{}

/// Worked values of terms.
pub fn rows_of_terms()
    ensures { RowsOfTerms }
{}

/// Worked values of kinds of lines.
pub fn rows_of_kinds()
    ensures { RowsOfKinds }
{}

/// Worked values of the parts of rule lines.
pub fn rows_of_rules()
    ensures { RowsOfRules }
{}

/// Worked values of plain texts and of recipe lines.
pub fn rows_of_texts()
    ensures { RowsOfTexts }
{}

/// A line has at most one reading as an assignment: a name, then blanks, then an operator. The one
/// that `classify` gives is that one, and where it gives none there is none.
pub fn law_of_assignments()
    ensures { AssignmentLaw }
{}

/// A line has exactly one mask by its terms, which are of one splitting: inside at the bytes of
/// references, a space at those of continuations in literals, and each other byte itself.
pub fn law_of_masks()
    ensures { MaskLaw }
{}

/// The comment of a line begins, and the colon of a head stands, where `classify` and `rule_parts`
/// find them: at the first place of that kind, and nowhere where there is none.
pub fn law_of_signs()
    ensures { SignLaw }
{}

/// Of the backslashes before a number sign half stay; the first one after an even number of them,
/// outside references, is where the comment begins, which goes, and `comment_place` finds that one.
pub fn law_of_comments()
    ensures { CommentLaw }
{}

/// The words before a target-specific macro are passed one by one, each between blanks, as long as
/// one comes; there is one place at which that ends.
pub fn law_of_modifiers()
    ensures { ModifierLaw }
{}

/// What a line says is what its condensed text says: its kind with each part, whether it assigns a
/// target-specific macro, and the head of a rule line.
pub fn law_of_lines()
    ensures { LineLaw }
{}

/// The text of a recipe line without newline is the line itself. Its newlines are those of physical lines that aren't
/// continued; but for blanks, backslashes and carriage returns it has the bytes of the line, in order.
pub fn law_of_recipe_texts()
    ensures { RecipeLaw }
{}

/// What a recipe line is at its first newline, and so at each: a newline that isn't continued stays; outside references
/// a continuation goes, and one tab after it; inside, continuations with the blanks round them are one space. Only one
/// text is so.
pub fn law_of_splicing()
    ensures { SplicingLaw }
{}

/// The first semicolon of a line is that of its condensed text, or neither has one: so `rule_parts` cuts head and
/// recipe at the same one.
pub fn law_of_semicolons()
    ensures { SemicolonLaw }
{}
