//! Patches as JSON: by their hashes, or at a place.
ghost use Rattle.std.specs.Prelude.{◌≡◌, map, IfOk, OnOk};
ghost use Rattle.std.specs.Option.{option_map};
ghost use Rattle.serde_json.specs.View.{view};
ghost use Rattle.dm_bundle.specs.Patches.{infos_of};
ghost use Rattle.dm_explain.specs.Fates.{lent};
ghost use Rattle.dm_log.specs.Finding.{hash_text};
ghost use Rattle.dm_log.specs.Json.{texts};
ghost use Rattle.dm_log.specs.JsonObjects.{members_in};
ghost use Rattle.dm_told.specs.Told.{of_verdict, placed, with_patch, with_word};

use dm_deliver::Answer;
use dm_info::Info;
use dm_log::{Object, hash_value};
use dm_named::Named;
use serde_json::Value;
use std::alloc::{AllocError, Global};

/// Sets a member to a word.
pub(crate) fn put_word(
    alloc: Global,
    object: &mut Object,
    name: &str,
    word: &str,
) -> Result<(), AllocError>
    ensures { OnOk result (members_in object.new ≡ with_word name.now word.now (members_in object.old)) }
{
    object.put(name, Value::try_from_str(alloc, word)?)
}

/// What each answer has.
pub(crate) fn of_verdict(alloc: Global, word: &str, answer: Answer) -> Result<Object, AllocError>
    ensures { IfOk result (λ o. members_in o ≡ of_verdict word.now answer) }
{
    let mut object = Object::new(alloc);
    put_word(alloc, &mut object, "verdict", word)?;
    let text = format!(in alloc; "{answer}")?;
    object.put("text", Value::String(text))?;
    Ok(object)
}

/// A patch at a place.
fn placed_value(alloc: Global, place: usize, info: &Info<Global>) -> Result<Value, AllocError>
    ensures { IfOk result (λ v. view v ≡ placed place info.now) }
{
    let mut object = Object::new(alloc);
    object.put("place", Value::from(place))?;
    object.put("hash", hash_value(alloc, info)?)?;
    object.put_text("name", info.name())?;
    Ok(object.into_value())
}

/// Sets a member to the patch at a place, if one stands there.
pub(crate) fn put_patch(
    alloc: Global,
    object: &mut Object,
    name: &str,
    place: usize,
    info: Option<&Info<Global>>,
) -> Result<(), AllocError>
    ensures { OnOk result (members_in object.new ≡ with_patch name.now place (option_map (λ i. i.now) info.entry) (members_in object.old)) }
{
    let Some(info) = info else {
        return Ok(());
    };
    object.put(name, placed_value(alloc, place, info)?)
}

/// The hashes of patches.
pub(crate) fn hashes_of(alloc: Global, patches: &[Named<Global>]) -> Result<Value, AllocError>
    ensures { IfOk result (λ v. view v ≡ texts hash_text (infos_of patches.now)) }
{
    let mut list = Vec::new(alloc);
    for patch in patches {
        list.push(hash_value(alloc, patch.info())?)?;
    }
    Ok(Value::Array(list))
}

/// The hashes of patches of these names.
pub(crate) fn hashes_of_names(alloc: Global, names: &[&Info<Global>]) -> Result<Value, AllocError>
    ensures { IfOk result (λ v. view v ≡ texts hash_text (lent names.now)) }
{
    let mut list = Vec::new(alloc);
    for name in names {
        list.push(hash_value(alloc, name)?)?;
    }
    Ok(Value::Array(list))
}

/// The hashes of the first of each two patches.
pub(crate) fn hashes_of_first(
    alloc: Global,
    pairs: &[(Info<Global>, Info<Global>)],
) -> Result<Value, AllocError>
    ensures { IfOk result (λ v. view v ≡ texts hash_text (map (λ p. p.0) pairs.now)) }
{
    let mut list = Vec::new(alloc);
    for pair in pairs {
        list.push(hash_value(alloc, &pair.0)?)?;
    }
    Ok(Value::Array(list))
}
