//! The faults of makefiles, with their numbers and messages.
ghost use Rattle.std.specs.Prelude.{◌≡◌, IfOk};

use std::alloc::{AllocError, Global};

/// What kind a fault is of.
#[derive(Clone, Copy, Debug, PartialEq, Eq)]
pub enum FaultKind {
    NulByte,
    FileTooLarge,
    NoMakefile,
    NoFile,
    MissingSeparator,
    RecipeBeforeTarget,
    UnterminatedReference,
    NestingTooDeep,
    BadMacroName,
    StrayElse,
    StrayEndif,
    MissingEndif,
    StrayEndef,
    MissingEndef,
    BadConditional,
    RefusedFunction,
    RefusedForm,
    BadArgument,
    ErrorCalled,
    RefusedName,
    BadStaticPattern,
    RefusedTarget,
    TargetSpecificMacro,
    SingleAndDoubleColon,
    NoTargets,
    NoRule,
    Circular,
    NameNotWritable,
    CommandNotWritable,
    TwoTargetsOfOneFile,
    EvalInRecipe,
    ReservedName,
    IncludeNameNotUtf8,
    BadGroup,
    TwoRecipes,
}

impl FaultKind {
    ghost use Rattle.kt_rules.specs.FaultKinds.{fault_kind_number, fault_kind_row, wording, words_with};

    /// The number at the end of the fault line, such as 26 in `[E26]`.
    pub fn number(self) -> u8
        ensures { result ≡ fault_kind_number self }
    {
        self.row().0
    }

    /// The message of the fault line, without the name at its end if it has one.
    pub fn words(self) -> &'static [u8]
        ensures { result.now ≡ wording self }
    {
        self.row().1
    }

    /// The message with its name, which is empty if the message has none.
    pub fn words_with(self, alloc: Global, name: &[u8]) -> Result<Vec<u8>, AllocError>
        ensures { IfOk result (λ text. text.items ≡ words_with self name.now) }
    {
        let mut text = Vec::from_slice(alloc, self.words())?;
        text.extend_from_slice(name)?;
        Ok(text)
    }

    // The number and message of each fault. A number is never used for another fault; there is no 25.
    fn row(self) -> (u8, &'static [u8])
        ensures { (result.0, result.1.now) ≡ fault_kind_row self }
    {
        match self {
            FaultKind::NulByte => (1, b"NUL byte"),
            FaultKind::FileTooLarge => (2, b"file too large: "),
            FaultKind::NoMakefile => (3, b"no makefile"),
            FaultKind::NoFile => (4, b"no file "),
            FaultKind::MissingSeparator => (5, b"missing separator"),
            FaultKind::RecipeBeforeTarget => (6, b"recipe before a target"),
            FaultKind::UnterminatedReference => (7, b"unterminated reference"),
            FaultKind::NestingTooDeep => (8, b"nesting too deep"),
            FaultKind::BadMacroName => (9, b"bad macro name"),
            FaultKind::StrayElse => (10, b"stray else"),
            FaultKind::StrayEndif => (11, b"stray endif"),
            FaultKind::MissingEndif => (12, b"missing endif"),
            FaultKind::StrayEndef => (13, b"stray endef"),
            FaultKind::MissingEndef => (14, b"missing endef"),
            FaultKind::BadConditional => (15, b"bad conditional"),
            FaultKind::RefusedFunction => (16, b"refused function "),
            FaultKind::RefusedForm => (17, b"refused form "),
            FaultKind::BadArgument => (18, b"bad argument of "),
            FaultKind::ErrorCalled => (19, b""),
            FaultKind::RefusedName => (20, b"refused name "),
            FaultKind::BadStaticPattern => (21, b"bad static pattern "),
            FaultKind::RefusedTarget => (22, b"refused target "),
            FaultKind::TargetSpecificMacro => (23, b"target-specific macro"),
            FaultKind::SingleAndDoubleColon => (24, b"single and double colon on "),
            FaultKind::NoTargets => (26, b"no targets"),
            FaultKind::NoRule => (27, b"no rule for "),
            FaultKind::Circular => (28, b"circular: "),
            FaultKind::NameNotWritable => (29, b"name not writable: "),
            FaultKind::CommandNotWritable => (30, b"command not writable: "),
            FaultKind::TwoTargetsOfOneFile => (31, b"two targets of one file: "),
            FaultKind::EvalInRecipe => (32, b"eval in a recipe"),
            FaultKind::ReservedName => (33, b"reserved name"),
            FaultKind::IncludeNameNotUtf8 => (34, b"include name is not UTF-8"),
            FaultKind::BadGroup => (35, b"bad group"),
            FaultKind::TwoRecipes => (36, b"two recipes on "),
        }
    }
}
