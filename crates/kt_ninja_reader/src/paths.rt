//! The paths that spellings stand for.
ghost use Rattle.std.specs.Prelude.{◌≡◌};
ghost use Rattle.kt_ninja_reader.specs.NinjaRead.{paths_in};
ghost use Rattle.kt_ninja_reader.specs.Scopes.{value_in, value_within};
ghost use Rattle.kt_ninja_reader.specs.inner.Holding.{path_in};
ghost use Rattle.kt_ninja_reader.specs.inner.Refusals.{Reads};

use crate::read_fault::PartFault;
use crate::scopes::{BlockScope, Scope, Scopes, expanded};
use crate::spelling::Spelling;
use kt_list::Sequence;
use kt_ninja::Path;
use std::alloc::Global;

// The value of a path, which isn't empty.
fn path(alloc: Global, path: &Spelling, scopes: Scopes) -> Result<Path, PartFault>
    ensures { Reads result (path_in (value_within scopes.entry.block.now scopes.entry.file.now) path.now) }
{
    let name = expanded(alloc, path, scopes)?;
    if name.is_empty() {
        return Err(PartFault::NoReading);
    }
    Ok(Path::from(name))
}

/// Paths, none of which is empty.
pub(crate) fn paths_within(
    alloc: Global,
    paths: &[Spelling],
    scopes: Scopes,
) -> Result<Sequence<Path>, PartFault>
    ensures { Reads result (paths_in (value_within scopes.entry.block.now scopes.entry.file.now) paths.now) }
{
    let mut names = Vec::with_capacity(alloc, paths.len())?;
    for spelling in paths {
        names.push(path(alloc, spelling, scopes)?)?;
    }
    Ok(Sequence::from(names))
}

/// As `paths_within`, by the variables of the file alone.
pub(crate) fn paths_of_file(
    alloc: Global,
    targets: &[Spelling],
    file: &Scope,
) -> Result<Sequence<Path>, PartFault>
    ensures { Reads result (paths_in (value_in file.now) targets.now) }
{
    let none = BlockScope::new();
    paths_within(alloc, targets, Scopes { block: &none, file })
}
