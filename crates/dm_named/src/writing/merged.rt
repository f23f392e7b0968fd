//! Writing named patches in whose bodies conflictors may stand.

ghost use Rattle.std.specs.Prelude.{◌≡◌, ◌++◌, OnOk, OnErr};
ghost use Rattle.std.specs.List.{flat_map};
ghost use Rattle.dm_prim.specs.Commuting.{IsValidPrim};
ghost use Rattle.dm_named.specs.Kinds.{HasBytes};
ghost use Rattle.dm_named.specs.MergedPatches.{EachOfItem, EachOfItems, IsValidMerged, HasMergedBytes};
ghost use Rattle.dm_named.specs.Items.{item_of, items_of};
ghost use Rattle.dm_named.specs.CanonicalMerged.{item_text, items_text, merged_text};

use crate::item::Item;
use crate::merged::Merged;
use crate::writing::conflictors::push_conflictor;
use crate::writing::{push_deps, push_prim};
use dm_info::push_info;
use std::alloc::{AllocError, Allocator};

fn push_item<A: Allocator, B: Allocator + Copy>(
    item: &Item<A>,
    out: &mut Vec<u8, B>,
) -> Result<(), AllocError>
    ensures text { OnOk result (out.new.items ≡ out.old.items ++ item_text (item_of item.now)) }
    ensures valid { OnOk result (EachOfItem IsValidPrim (item_of item.now)) }
    ensures bytes { OnOk result (EachOfItem HasBytes (item_of item.now)) }
{
    match item {
        Item::Plain(prim) => push_prim(prim, out),
        Item::Conflicted(conflictor) => push_conflictor(conflictor, out),
    }
}

fn push_items<A: Allocator, B: Allocator + Copy>(
    items: &[Item<A>],
    out: &mut Vec<u8, B>,
) -> Result<(), AllocError>
    ensures text { OnOk result (out.new.items ≡ out.old.items ++ flat_map item_text (items_of items.now)) }
    ensures valid { OnOk result (EachOfItems IsValidPrim (items_of items.now)) }
    ensures bytes { OnOk result (EachOfItems HasBytes (items_of items.now)) }
{
    for item in items {
        push_item(item, out)?;
    }
    Ok(())
}

fn push_body_of_items<A: Allocator, B: Allocator + Copy>(
    items: &[Item<A>],
    out: &mut Vec<u8, B>,
) -> Result<(), AllocError>
    ensures text { OnOk result (out.new.items ≡ out.old.items ++ items_text (items_of items.now)) }
    ensures valid { OnOk result (EachOfItems IsValidPrim (items_of items.now)) }
    ensures bytes { OnOk result (EachOfItems HasBytes (items_of items.now)) }
{
    if items.len() == 1 {
        return push_item(&items[0], out);
    }
    out.extend_from_slice(b"{\n")?;
    push_items(items, out)?;
    out.extend_from_slice(b"}\n")?;
    Ok(())
}

/// Appends the canonical text of a named patch in whose body conflictors may stand. If an allocation fails, a part of it may have been
/// appended: for callers that then drop the whole text. [`write_merged`] appends all or nothing.
pub fn push_merged<A: Allocator, B: Allocator + Copy>(
    patch: &Merged<A>,
    out: &mut Vec<u8, B>,
) -> Result<(), AllocError>
    ensures ok { OnOk result (out.new.items ≡ out.old.items ++ merged_text patch.now) }
    // The patch is valid and has bytes only, so its text is read back as the same patch.
    ensures valid { OnOk result (IsValidMerged patch.now) }
    ensures bytes { OnOk result (HasMergedBytes patch.now) }
{
    push_info(patch.info(), out)?;
    push_deps(patch.deps(), out)?;
    push_body_of_items(patch.body(), out)?;
    Ok(())
}

/// Appends the canonical text of a named patch in whose body conflictors may stand. A failed allocation changes nothing.
pub fn write_merged<A: Allocator, B: Allocator + Copy>(
    patch: &Merged<A>,
    out: &mut Vec<u8, B>,
) -> Result<(), AllocError>
    ensures ok { OnOk result (out.new.items ≡ out.old.items ++ merged_text patch.now) }
    // The patch is valid and has bytes only, so its text is read back as the same patch.
    ensures valid { OnOk result (IsValidMerged patch.now) }
    ensures bytes { OnOk result (HasMergedBytes patch.now) }
    ensures err { OnErr result (out.new.items ≡ out.old.items) }
{
    let mut text = Vec::new(*out.allocator());
    push_merged(patch, &mut text)?;
    out.extend_from_slice(&text)?;
    Ok(())
}
