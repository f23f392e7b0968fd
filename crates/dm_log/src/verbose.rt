//! What a patch does, as a log shows it.
ghost use Rattle.std.specs.Prelude.{◌≡◌, ◌==◌, ◌++◌, ◌∷◌, [], codes, OnOk};
ghost use Rattle.std.specs.List.{flat_map, slice_split};
ghost use Rattle.dm_named.specs.Canonical.{path_text};
ghost use Rattle.dm_prim.specs.Prims.{prim_of, prims_of};
ghost use Rattle.dm_log.specs.Verbose.{body_shown, detail, details, patch_shown, prim_shown};

use crate::entry::push_labelled;
use dm_info::push_info;
use dm_named::{Named, push_deps, push_prim, write_path};
use dm_prim::Prim;
use dm_tree::Path;
use memchr::memchr;
use std::alloc::{AllocError, Allocator};

fn push_binary<A: Allocator, B: Allocator + Copy>(
    path: &Path<A>,
    out: &mut Vec<u8, B>,
) -> Result<(), AllocError>
    ensures { OnOk result (out.new.items ≡ out.old.items ++ (codes "binary " ++ (path_text path.now ++ 10 ∷ []))) }
{
    out.extend_from_slice(b"binary ")?;
    write_path(path, out)?;
    out.push(b'\n')?;
    Ok(())
}

fn push_shown_prim<A: Allocator, B: Allocator + Copy>(
    prim: &Prim<A>,
    out: &mut Vec<u8, B>,
) -> Result<(), AllocError>
    ensures { OnOk result (out.new.items ≡ out.old.items ++ prim_shown (prim_of prim.now)) }
{
    match prim {
        Prim::Binary(binary) => push_binary(binary.path(), out),
        Prim::AddFile(_)
        | Prim::RmFile(_)
        | Prim::AddDir(_)
        | Prim::RmDir(_)
        | Prim::Move(_, _)
        | Prim::Hunk(_)
        | Prim::Replace(_)
        | Prim::ChangePref(_) => push_prim(prim, out),
    }
}

fn push_shown_prims<A: Allocator, B: Allocator + Copy>(
    prims: &[Prim<A>],
    out: &mut Vec<u8, B>,
) -> Result<(), AllocError>
    ensures { OnOk result (out.new.items ≡ out.old.items ++ flat_map prim_shown (prims_of prims.now)) }
{
    for prim in prims {
        push_shown_prim(prim, out)?;
    }
    Ok(())
}

fn push_shown_body<A: Allocator, B: Allocator + Copy>(
    prims: &[Prim<A>],
    out: &mut Vec<u8, B>,
) -> Result<(), AllocError>
    ensures { OnOk result (out.new.items ≡ out.old.items ++ body_shown (prims_of prims.now)) }
{
    if prims.len() == 1 {
        return push_shown_prim(&prims[0], out);
    }
    out.extend_from_slice(b"{\n")?;
    push_shown_prims(prims, out)?;
    out.extend_from_slice(b"}\n")?;
    Ok(())
}

/// Appends the canonical text of a patch, but of a binary its path alone.
fn push_patch<A: Allocator, B: Allocator + Copy>(
    patch: &Named<A>,
    out: &mut Vec<u8, B>,
) -> Result<(), AllocError>
    ensures { OnOk result (out.new.items ≡ out.old.items ++ patch_shown patch.now) }
{
    push_info(patch.info(), out)?;
    push_deps(patch.deps(), out)?;
    push_shown_body(patch.prims(), out)?;
    Ok(())
}

/// Appends each line of a text, behind four spaces, as it is shown.
fn push_lines<A: Allocator>(text: &[u8], out: &mut Vec<u8, A>) -> Result<(), AllocError>
    ensures { OnOk result (out.new.items ≡ out.old.items ++ flat_map detail (slice_split (λ b. b == 10) text.now)) }
{
    let mut rest = text;
    while let Some(end) = memchr(b'\n', rest) {
        push_labelled(b"    ", &rest[..end], out)?;
        let more = &rest[end..];
        rest = &more[1..];
    }
    push_labelled(b"    ", rest, out)
}

/// Appends what a patch does. If an allocation fails, a part of it may stand there.
pub(crate) fn push_details<A: Allocator, B: Allocator + Copy>(
    patch: &Named<A>,
    out: &mut Vec<u8, B>,
) -> Result<(), AllocError>
    ensures { OnOk result (out.new.items ≡ out.old.items ++ details (patch_shown patch.now)) }
{
    let mut text = Vec::new(*out.allocator());
    push_patch(patch, &mut text)?;
    push_lines(&text[..text.len().saturating_sub(1)], out)
}
