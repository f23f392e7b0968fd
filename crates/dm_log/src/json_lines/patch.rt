//! Patches as JSON.
ghost use Rattle.std.specs.Prelude.{◌≡◌, [], ◌∷◌, ◌++◌, IfOk, OnOk};
ghost use Rattle.serde_json.specs.Data.{string};
ghost use Rattle.serde_json.specs.View.{view};
ghost use Rattle.dm_tree.specs.Validity.{IsPlain};
ghost use Rattle.dm_log.specs.Dates.{iso_date};
ghost use Rattle.dm_log.specs.Finding.{hash_text};
ghost use Rattle.dm_log.specs.Json.{info_members, patch_data, patch_members, texts, told};
ghost use Rattle.dm_log.specs.JsonObjects.{members_in};

use crate::date::push_iso_date;
use crate::finding::hash_text;
use crate::json_lines::change::changes_value;
use crate::json_lines::object::{Object, text_value};
use dm_info::Info;
use dm_named::Named;
use dm_tree::Lines;
use serde_json::Value;
use std::alloc::{AllocError, Allocator, Global};

/// The hash by which Darcs names a patch, in digits.
pub fn hash_value<A: Allocator>(alloc: Global, info: &Info<A>) -> Result<Value, AllocError>
    ensures { IfOk result (λ v. view v ≡ string (hash_text info.now)) }
{
    Ok(text_value(hash_text(alloc, info)?))
}

/// The hashes of patches, in their order.
fn hashes_value<A: Allocator>(alloc: Global, infos: &[Info<A>]) -> Result<Value, AllocError>
    ensures { IfOk result (λ v. view v ≡ texts hash_text infos.now) }
{
    let mut list = Vec::new(alloc);
    for info in infos {
        list.push(hash_value(alloc, info)?)?;
    }
    Ok(Value::Array(list))
}

/// Appends a line of a log, unless it only makes a patch's name unlike any other.
fn push_told(line: &[u8], lines: &mut Lines<Global>) -> Result<(), AllocError>
    requires { IsPlain line.now }
    ensures { OnOk result (lines.new ≡ lines.old ++ told (line.now ∷ [])) }
{
    if line.starts_with(b"Ignore-this: ") {
        return Ok(());
    }
    lines.push_plain(line)
}

/// The lines of a log, without those that only make a patch's name unlike any other.
fn told_lines<A: Allocator>(alloc: Global, info: &Info<A>) -> Result<Lines<Global>, AllocError>
    ensures { IfOk result (λ lines. lines ≡ told info.now.log) }
{
    let mut lines = Lines::new(alloc);
    for i in 0..info.log_len() {
        push_told(info.log_line(i), &mut lines)?;
    }
    Ok(lines)
}

/// A date as ISO 8601 has it, if it is one.
fn dated(alloc: Global, date: &[u8]) -> Result<Vec<u8>, AllocError>
    ensures { IfOk result (λ text. text.items ≡ iso_date date.now) }
{
    let mut text = Vec::new(alloc);
    push_iso_date(date, &mut text)?;
    Ok(text)
}

/// The parts of a patch info, its hash, and whether it is a tag.
fn info_object<A: Allocator>(alloc: Global, info: &Info<A>) -> Result<Object, AllocError>
    ensures { IfOk result (λ o. members_in o ≡ info_members info.now) }
{
    let mut object = Object::new(alloc);
    object.put_text("author", info.author())?;
    object.put_text("date", dated(alloc, info.date())?.as_slice())?;
    object.put_text("name", info.name())?;
    object.put("hash", hash_value(alloc, info)?)?;
    object.put_lines("log", &told_lines(alloc, info)?)?;
    let is_tag = info.name().starts_with(b"TAG ");
    object.put("tag", Value::from(is_tag))?;
    Ok(object)
}

/// A patch at its place, as an object to which more may be put.
pub fn patch_object<A: Allocator>(
    alloc: Global,
    place: usize,
    patch: &Named<A>,
) -> Result<Object, AllocError>
    ensures { IfOk result (λ o. members_in o ≡ patch_members place patch.now) }
{
    let mut object = info_object(alloc, patch.info())?;
    object.put("changes", changes_value(alloc, patch.prims())?)?;
    object.put("depends", hashes_value(alloc, patch.deps())?)?;
    object.put("place", Value::from(place))?;
    Ok(object)
}

/// A patch at its place.
pub(crate) fn patch_value<A: Allocator>(
    alloc: Global,
    place: usize,
    patch: &Named<A>,
) -> Result<Value, AllocError>
    ensures { IfOk result (λ v. view v ≡ patch_data place patch.now) }
{
    let object = patch_object(alloc, place, patch)?;
    Ok(object.into_value())
}
