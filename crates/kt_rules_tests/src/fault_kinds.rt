//! The table of faults.
use crate::sameness::same;
use kt_rules::FaultKind;
use std::test::Fail;

/// Each fault, in the order of docs/LANGUAGE.md.
const KINDS: [FaultKind; 35] = [
    FaultKind::NulByte,
    FaultKind::FileTooLarge,
    FaultKind::NoMakefile,
    FaultKind::NoFile,
    FaultKind::MissingSeparator,
    FaultKind::RecipeBeforeTarget,
    FaultKind::UnterminatedReference,
    FaultKind::NestingTooDeep,
    FaultKind::BadMacroName,
    FaultKind::StrayElse,
    FaultKind::StrayEndif,
    FaultKind::MissingEndif,
    FaultKind::StrayEndef,
    FaultKind::MissingEndef,
    FaultKind::BadConditional,
    FaultKind::RefusedFunction,
    FaultKind::RefusedForm,
    FaultKind::BadArgument,
    FaultKind::ErrorCalled,
    FaultKind::RefusedName,
    FaultKind::BadStaticPattern,
    FaultKind::RefusedTarget,
    FaultKind::TargetSpecificMacro,
    FaultKind::SingleAndDoubleColon,
    FaultKind::NoTargets,
    FaultKind::NoRule,
    FaultKind::Circular,
    FaultKind::NameNotWritable,
    FaultKind::CommandNotWritable,
    FaultKind::TwoTargetsOfOneFile,
    FaultKind::EvalInRecipe,
    FaultKind::ReservedName,
    FaultKind::IncludeNameNotUtf8,
    FaultKind::BadGroup,
    FaultKind::TwoRecipes,
];

/// The numbers run from 1 to 36 without 25, each once.
#[test]
fn numbers_each_fault(rt: HostRuntime) -> Result<(), Fail> {
    let mut next = 1;
    for kind in &KINDS {
        if next == 25 {
            next = 26;
        }
        // Not by `same`, which doesn't tell the proof that one more fits.
        assert_eq!(rt; kind.number(), next, "of {kind:?}");
        next += 1;
    }
    assert_eq!(rt; next, 37);
    Ok(())
}

/// The words of a fault, alone and with a name.
#[test]
fn joins_words_and_names(rt: HostRuntime) -> Result<(), Fail> {
    let rows: &[(FaultKind, &[u8], &[u8], &[u8])] = &[
        (FaultKind::NoFile, b"a.mk", b"no file ", b"no file a.mk"),
        (FaultKind::NoTargets, b"", b"no targets", b"no targets"),
        (FaultKind::ErrorCalled, b"no compiler", b"", b"no compiler"),
    ];
    for row in rows {
        let words = row.0.words_with(rt.alloc(), row.1)?;
        same(&rt, row.0, row.0.words(), row.2);
        same(&rt, row.0, words.as_slice(), row.3);
    }
    Ok(())
}
