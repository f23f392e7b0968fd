//! Primitives as JSON.
ghost use Rattle.std.specs.Prelude.{◌≡◌, IfOk};
ghost use Rattle.serde_json.specs.View.{view};
ghost use Rattle.dm_hex.specs.Contents.{content};
ghost use Rattle.dm_prim.specs.Binaries.{binary_of};
ghost use Rattle.dm_prim.specs.Hunks.{hunk_of};
ghost use Rattle.dm_prim.specs.Preferences.{preference_of};
ghost use Rattle.dm_prim.specs.Primitives as primitives;
ghost use Rattle.dm_prim.specs.Prims.{prim_of, prims_of};
ghost use Rattle.dm_prim.specs.Replaces.{replace_of};
ghost use Rattle.dm_named.specs.Replaces.{bracketed};
ghost use Rattle.dm_log.specs.Json.{array_of, at_path, change_data, change_members, dotted, of_kind};
ghost use Rattle.dm_log.specs.JsonObjects.{members_in};

use crate::json_lines::object::{Object, hex_value};
use dm_prim::{Binary, Hunk, Preference, Prim, Replace};
use dm_tree::{Lines, Path};
use serde_json::Value;
use std::alloc::{AllocError, Allocator, Global};

/// A path as it is shown, but that nothing is escaped.
fn dotted_path<A: Allocator>(alloc: Global, path: &Path<A>) -> Result<Vec<u8>, AllocError>
    ensures { IfOk result (λ text. text.items ≡ dotted path.now) }
{
    let mut text = Vec::new(alloc);
    text.push(b'.')?;
    for i in 0..path.len() {
        text.push(b'/')?;
        text.extend_from_slice(path.part(i))?;
    }
    Ok(text)
}

/// The content of a file with these lines.
fn content_of<A: Allocator>(alloc: Global, lines: &Lines<A>) -> Result<Vec<u8>, AllocError>
    ensures { IfOk result (λ bytes. bytes.items ≡ content lines.now) }
{
    let mut bytes = Vec::new(alloc);
    if lines.is_empty() {
        return Ok(bytes);
    }
    bytes.extend_from_slice(lines.line(0))?;
    for i in 1..lines.len() {
        bytes.push(b'\n')?;
        bytes.extend_from_slice(lines.line(i))?;
    }
    Ok(bytes)
}

/// A text between brackets.
fn in_brackets(alloc: Global, set: &[u8]) -> Result<Vec<u8>, AllocError>
    ensures { IfOk result (λ text. text.items ≡ bracketed set.now) }
{
    let mut text = Vec::new(alloc);
    text.push(b'[')?;
    text.extend_from_slice(set)?;
    text.push(b']')?;
    Ok(text)
}

/// A change of a kind.
fn of_kind(alloc: Global, kind: &str) -> Result<Object, AllocError>
    ensures { IfOk result (λ o. members_in o ≡ of_kind kind.now) }
{
    let mut object = Object::new(alloc);
    object.put("kind", Value::try_from_str(alloc, kind)?)?;
    Ok(object)
}

/// A change of a kind at a path.
fn at_path<A: Allocator>(alloc: Global, kind: &str, path: &Path<A>) -> Result<Object, AllocError>
    ensures { IfOk result (λ o. members_in o ≡ at_path kind.now path.now) }
{
    let mut object = of_kind(alloc, kind)?;
    object.put_text("path", dotted_path(alloc, path)?.as_slice())?;
    Ok(object)
}

fn move_object<A: Allocator>(
    alloc: Global,
    from: &Path<A>,
    to: &Path<A>,
) -> Result<Object, AllocError>
    ensures { IfOk result (λ o. members_in o ≡ change_members (primitives.Move from.now to.now)) }
{
    let mut object = at_path(alloc, "move", from)?;
    object.put_text("to", dotted_path(alloc, to)?.as_slice())?;
    Ok(object)
}

fn hunk_object<A: Allocator>(alloc: Global, hunk: &Hunk<A>) -> Result<Object, AllocError>
    ensures { IfOk result (λ o. members_in o ≡ change_members (hunk_of hunk.now)) }
{
    let mut object = at_path(alloc, "hunk", hunk.path())?;
    object.put("line", Value::from(hunk.line()))?;
    object.put_lines("old", hunk.old())?;
    object.put_lines("new", hunk.new_lines())?;
    Ok(object)
}

fn binary_object<A: Allocator>(alloc: Global, binary: &Binary<A>) -> Result<Object, AllocError>
    ensures { IfOk result (λ o. members_in o ≡ change_members (binary_of binary.now)) }
{
    let mut object = at_path(alloc, "binary", binary.path())?;
    let old = content_of(alloc, binary.old())?;
    object.put("old_hex", hex_value(alloc, old.as_slice())?)?;
    let new = content_of(alloc, binary.new_lines())?;
    object.put("new_hex", hex_value(alloc, new.as_slice())?)?;
    Ok(object)
}

fn replace_object<A: Allocator>(alloc: Global, replace: &Replace<A>) -> Result<Object, AllocError>
    ensures { IfOk result (λ o. members_in o ≡ change_members (replace_of replace.now)) }
{
    let tokens = replace.tokens();
    let mut object = at_path(alloc, "replace", replace.path())?;
    let set = in_brackets(alloc, tokens.set_text())?;
    object.put_text("tokens", set.as_slice())?;
    object.put_text("old", tokens.old())?;
    object.put_text("new", tokens.new_token())?;
    Ok(object)
}

fn preference_object<A: Allocator>(
    alloc: Global,
    change: &Preference<A>,
) -> Result<Object, AllocError>
    ensures { IfOk result (λ o. members_in o ≡ change_members (preference_of change.now)) }
{
    let mut object = of_kind(alloc, "changepref")?;
    object.put_text("name", change.name())?;
    object.put_text("old", change.old())?;
    object.put_text("new", change.new_value())?;
    Ok(object)
}

fn change_object<A: Allocator>(alloc: Global, prim: &Prim<A>) -> Result<Object, AllocError>
    ensures { IfOk result (λ o. members_in o ≡ change_members (prim_of prim.now)) }
{
    match prim {
        Prim::AddFile(path) => at_path(alloc, "addfile", path),
        Prim::RmFile(path) => at_path(alloc, "rmfile", path),
        Prim::AddDir(path) => at_path(alloc, "adddir", path),
        Prim::RmDir(path) => at_path(alloc, "rmdir", path),
        Prim::Move(from, to) => move_object(alloc, from, to),
        Prim::Hunk(hunk) => hunk_object(alloc, hunk),
        Prim::Binary(binary) => binary_object(alloc, binary),
        Prim::Replace(replace) => replace_object(alloc, replace),
        Prim::ChangePref(change) => preference_object(alloc, change),
    }
}

/// Primitives as an array, in their order.
pub(crate) fn changes_value<A: Allocator>(
    alloc: Global,
    prims: &[Prim<A>],
) -> Result<Value, AllocError>
    ensures { IfOk result (λ v. view v ≡ array_of change_data (prims_of prims.now)) }
{
    let mut list = Vec::new(alloc);
    for prim in prims {
        list.push(change_object(alloc, prim)?.into_value())?;
    }
    Ok(Value::Array(list))
}
