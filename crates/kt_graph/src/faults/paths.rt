//! Which names are names of one file, and the name that is reserved for kati.
ghost use Rattle.std.specs.Prelude.{◌≡◌, ◌++◌, ◌∷◌, ◌==◌, [], bytes_eq, flat_map, map, reverse, IfOk, OnOk};
ghost use Rattle.std.specs.Prelude.{if◌then◌else◌};
ghost use Rattle.std.specs.List.{join_with_byte, slice_split};
ghost use Rattle.kt_graph.specs.faults.Paths.{above_name, always_name, canon_of, is_rooted, step_up};
ghost use Rattle.kt_graph.specs.inner.faults.Files.{ends_in_name};
ghost use Rattle.kt_graph.specs.faults.Paths.{with_part};

use crate::faults::spelling::is_canonical;
use std::alloc::{AllocError, Global};

/// The input that makes Ninja always run the commands of phony targets: a reserved name, which no file ever has.
pub const ALWAYS_BUILD: &[u8] = b"_kati_always_build_";

/// The canonical spelling of a name's file: without empty components and `.`, and with each `..` removed along with the
/// component before it. Looks at no file.
pub(crate) fn canon(alloc: Global, name: &[u8]) -> Result<Vec<u8>, AllocError>
    ensures { IfOk result (λ canon. canon.items ≡ canon_of name.now) }
{
    if is_canonical(name) {
        return Vec::from_slice(alloc, name);
    }
    resolved(alloc, name)
}

// As `canon`, component by component.
#[tactic(auto, unfolding(crate::specs::faults::Paths::canon_of, crate::specs::faults::Paths::components_of))]
fn resolved(alloc: Global, name: &[u8]) -> Result<Vec<u8>, AllocError>
    ensures { IfOk result (λ canon. canon.items ≡ canon_of name.now) }
{
    let rooted = is_rooted(name);
    let pieces = pieces(alloc, name)?;
    let mut parts = Vec::new(alloc);
    for part in pieces.as_slice() {
        add_part(rooted, &mut parts, *part)?;
    }
    spelled(alloc, rooted, parts.as_slice())
}

// The pieces between the slashes.
fn pieces(alloc: Global, name: &[u8]) -> Result<Vec<&[u8]>, AllocError>
    ensures { IfOk result (λ pieces. map (λ piece. piece.now) pieces.items ≡ slice_split
        (λ byte. byte == 47) name.now) }
{
    name.split(|byte| *byte == b'/').collect(alloc)
}

/// Whether a canonical name is the reserved one.
pub(crate) fn is_always(canon: &[u8]) -> bool
    ensures { result ≡ bytes_eq canon.now always_name }
{
    canon == ALWAYS_BUILD
}

pub(crate) fn is_rooted(name: &[u8]) -> bool
    ensures { result ≡ is_rooted name.now }
{
    matches!(name, [b'/', ..])
}

// Adds a component to those before it.
fn add_part<'n>(rooted: bool, parts: &mut Vec<&'n [u8]>, part: &'n [u8]) -> Result<(), AllocError>
    ensures { OnOk result (reverse (map (λ part. part.now) parts.new.items)
        ≡ with_part rooted (reverse (map (λ part. part.now) parts.old.items)) part.now) }
{
    match part {
        [] | [b'.'] => {}
        [b'.', b'.'] => step_up(rooted, parts, part)?,
        _ => parts.push(part)?,
    }
    Ok(())
}

// `..` removes the component before it. Without one it stays, except directly under the root, where it is dropped.
fn step_up<'n>(rooted: bool, parts: &mut Vec<&'n [u8]>, above: &'n [u8]) -> Result<(), AllocError>
    requires { above.now ≡ above_name }
    ensures { OnOk result (reverse (map (λ part. part.now) parts.new.items)
        ≡ step_up rooted (reverse (map (λ part. part.now) parts.old.items))) }
{
    if ends_in_name(parts.as_slice()) {
        let _ = parts.pop();
        return Ok(());
    }
    if rooted && parts.is_empty() {
        return Ok(());
    }
    Ok(parts.push(above)?)
}

// Whether the last component is a name, which `..` removes.
fn ends_in_name(parts: &[&[u8]]) -> bool
    ensures { result ≡ ends_in_name (reverse (map (λ part. part.now) parts.now)) }
{
    match parts {
        [] => false,
        [.., last] => *last != b"..".as_slice(),
    }
}

// The name that components spell.
fn spelled(alloc: Global, rooted: bool, parts: &[&[u8]]) -> Result<Vec<u8>, AllocError>
    ensures { IfOk result (λ name. name.items ≡ (if rooted then 47 ∷ [] else [])
        ++ join_with_byte 47 (map (λ part. part.now) parts.now)) }
{
    let mut name = Vec::new(alloc);
    if rooted {
        name.push(b'/')?;
    }
    add_joined(&mut name, parts)?;
    Ok(name)
}

// Adds components with slashes between them.
#[tactic(auto, using(crate::proofs::lemmas::faults::PartLemmas::joined_after))]
fn add_joined(name: &mut Vec<u8>, parts: &[&[u8]]) -> Result<(), AllocError>
    ensures { OnOk result (name.new.items ≡ name.old.items ++ join_with_byte 47 (map (λ part. part.now) parts.now)) }
{
    match parts {
        [] => Ok(()),
        [first, after @ ..] => {
            name.extend_from_slice(first)?;
            add_after(name, after)
        }
    }
}

// Adds components, a slash before each.
fn add_after(name: &mut Vec<u8>, parts: &[&[u8]]) -> Result<(), AllocError>
    ensures { OnOk result (name.new.items ≡ name.old.items ++ flat_map (λ part. 47 ∷ part.now) parts.now) }
{
    for part in parts {
        name.push(b'/')?;
        name.extend_from_slice(part)?;
    }
    Ok(())
}
