//! Writing conflictors.

ghost use Rattle.std.specs.Prelude.{◌≡◌, ◌++◌, OnOk, OnErr};
ghost use Rattle.std.specs.List.{AllByRecursion, flat_map};
ghost use Rattle.dm_prim.specs.Commuting.{IsValidPrim};
ghost use Rattle.dm_prim.specs.Prims.{prims_of};
ghost use Rattle.dm_named.specs.Kinds.{HasBytes, HaveBytes};
ghost use Rattle.dm_named.specs.Conflictors.{EachOfOriginal, IsValidConflictor, HasConflictorBytes};
ghost use Rattle.dm_named.specs.CanonicalConflictors.{original_text, partners_text, undone_text, conflictor_text};

use crate::conflictor::Conflictor;
use crate::original::Original;
use crate::writing::{push_prim, push_prims};
use dm_prim::Prim;
use std::alloc::{AllocError, Allocator};

fn push_original<A: Allocator, B: Allocator + Copy>(
    original: &Original<A>,
    out: &mut Vec<u8, B>,
) -> Result<(), AllocError>
    ensures text { OnOk result (out.new.items ≡ out.old.items ++ original_text original.now) }
    ensures valid { OnOk result (EachOfOriginal IsValidPrim original.now) }
    ensures bytes { OnOk result (EachOfOriginal HasBytes original.now) }
{
    push_prims(original.context(), out)?;
    out.extend_from_slice(b":\n")?;
    push_prim(original.prim(), out)?;
    Ok(())
}

fn push_originals<A: Allocator, B: Allocator + Copy>(
    originals: &[Original<A>],
    out: &mut Vec<u8, B>,
) -> Result<(), AllocError>
    ensures text { OnOk result (out.new.items ≡ out.old.items ++ flat_map original_text originals.now) }
    ensures valid { OnOk result (AllByRecursion (EachOfOriginal IsValidPrim) originals.now) }
    ensures bytes { OnOk result (AllByRecursion (EachOfOriginal HasBytes) originals.now) }
{
    for original in originals {
        push_original(original, out)?;
    }
    Ok(())
}

fn push_partners<A: Allocator, B: Allocator + Copy>(
    partners: &[Original<A>],
    out: &mut Vec<u8, B>,
) -> Result<(), AllocError>
    ensures text { OnOk result (out.new.items ≡ out.old.items ++ partners_text partners.now) }
    ensures valid { OnOk result (AllByRecursion (EachOfOriginal IsValidPrim) partners.now) }
    ensures bytes { OnOk result (AllByRecursion (EachOfOriginal HasBytes) partners.now) }
{
    if partners.is_empty() {
        return Ok(());
    }
    out.extend_from_slice(b"{{\n")?;
    push_originals(partners, out)?;
    out.extend_from_slice(b"}} ")?;
    Ok(())
}

fn push_undone<A: Allocator, B: Allocator + Copy>(
    prims: &[Prim<A>],
    out: &mut Vec<u8, B>,
) -> Result<(), AllocError>
    ensures text { OnOk result (out.new.items ≡ out.old.items ++ undone_text (prims_of prims.now)) }
    ensures valid { OnOk result (AllByRecursion IsValidPrim (prims_of prims.now)) }
    ensures bytes { OnOk result (HaveBytes (prims_of prims.now)) }
{
    if prims.is_empty() {
        out.extend_from_slice(b"[]\n")?;
        return Ok(());
    }
    out.extend_from_slice(b"[\n")?;
    push_prims(prims, out)?;
    out.extend_from_slice(b"]\n")?;
    Ok(())
}

/// Appends the canonical text of a conflictor. If an allocation fails, a part of it may have been appended: for callers that then
/// drop the whole text. [`write_conflictor`] appends all or nothing.
pub fn push_conflictor<A: Allocator, B: Allocator + Copy>(
    conflictor: &Conflictor<A>,
    out: &mut Vec<u8, B>,
) -> Result<(), AllocError>
    ensures ok { OnOk result (out.new.items ≡ out.old.items ++ conflictor_text conflictor.now) }
    // Its primitives are valid and have bytes only, so its text is read back as the same conflictor.
    ensures valid { OnOk result (IsValidConflictor conflictor.now) }
    ensures bytes { OnOk result (HasConflictorBytes conflictor.now) }
{
    out.extend_from_slice(b"conflictor ")?;
    push_partners(conflictor.partners(), out)?;
    push_undone(conflictor.undone(), out)?;
    push_original(conflictor.own(), out)?;
    Ok(())
}

/// Appends the canonical text of a conflictor. A failed allocation changes nothing.
pub fn write_conflictor<A: Allocator, B: Allocator + Copy>(
    conflictor: &Conflictor<A>,
    out: &mut Vec<u8, B>,
) -> Result<(), AllocError>
    ensures ok { OnOk result (out.new.items ≡ out.old.items ++ conflictor_text conflictor.now) }
    // Its primitives are valid and have bytes only, so its text is read back as the same conflictor.
    ensures valid { OnOk result (IsValidConflictor conflictor.now) }
    ensures bytes { OnOk result (HasConflictorBytes conflictor.now) }
    ensures err { OnErr result (out.new.items ≡ out.old.items) }
{
    let mut text = Vec::new(*out.allocator());
    push_conflictor(conflictor, &mut text)?;
    out.extend_from_slice(&text)?;
    Ok(())
}
