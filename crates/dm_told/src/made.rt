//! What was made, as JSON: bundles, and mirrors.
ghost use Rattle.std.specs.Prelude.{◌≡◌, codes, map, IfOk, None, OnOk};
ghost use Rattle.std.specs.Option.{option_map};
ghost use Rattle.dm_log.specs.JsonObjects.{members_in};
ghost use Rattle.dm_told.specs.Told.{IsBegunLine, IsBoundLine, IsMadeLine, IsSoundLine, begun, bound, made, with_bundle};

use crate::line::line_of;
use crate::named::{hashes_of, hashes_of_first, put_word};
use dm_bundle::Bundle;
use dm_info::Info;
use dm_log::Object;
use serde_json::Value;
use std::alloc::{AllocError, Global};

/// Sets a member to the text of a bundle, if it is told.
fn put_bundle(object: &mut Object, text: Option<&[u8]>) -> Result<(), AllocError>
    ensures { OnOk result (members_in object.new ≡ with_bundle (option_map (λ t. t.now) text.entry) (members_in object.old)) }
{
    let Some(text) = text else {
        return Ok(());
    };
    object.put_text("bundle", text)
}

/// A bundle, by a word.
fn made_object(
    alloc: Global,
    word: &str,
    bundle: &Bundle<Global>,
    text: Option<&[u8]>,
) -> Result<Object, AllocError>
    ensures { IfOk result (λ o. members_in o ≡ made word.now bundle.now (option_map (λ t. t.now) text.entry)) }
{
    let mut object = Object::new(alloc);
    put_word(alloc, &mut object, "verdict", word)?;
    object.put("hashes", hashes_of(alloc, bundle.new_patches())?)?;
    put_bundle(&mut object, text)?;
    Ok(object)
}

/// The line of a bundle, by a word that says what became of it. Its text is told too, unless that is elsewhere.
pub fn made_line(
    alloc: Global,
    word: &str,
    bundle: &Bundle<Global>,
    text: Option<&[u8]>,
) -> Result<Vec<u8>, AllocError>
    ensures { IfOk result (λ line. IsMadeLine word.now bundle.now (option_map (λ t. t.now) text.entry) line.items) }
{
    let object = made_object(alloc, word, bundle, text)?;
    let line = line_of(alloc, object)?;
    Ok(line)
}

/// The line of a bundle in which nothing is wrong.
pub fn sound_line(alloc: Global, bundle: &Bundle<Global>) -> Result<Vec<u8>, AllocError>
    ensures { IfOk result (λ line. IsSoundLine bundle.now line.items) }
{
    made_line(alloc, "sound", bundle, None)
}

/// Patches that are bound to the chosen ones.
fn bound_object(alloc: Global, pairs: &[(Info<Global>, Info<Global>)]) -> Result<Object, AllocError>
    ensures { IfOk result (λ o. members_in o ≡ bound pairs.now) }
{
    let mut object = Object::new(alloc);
    put_word(alloc, &mut object, "verdict", "refused")?;
    let count = pairs.len();
    let text = format!(in alloc; "refused depends {count}")?;
    object.put("text", Value::String(text))?;
    put_word(alloc, &mut object, "why", "depends")?;
    object.put("bound", hashes_of_first(alloc, pairs)?)?;
    Ok(object)
}

/// The line of a refusal, since these patches are bound to the chosen ones, each to the one beside it.
pub fn bound_line(
    alloc: Global,
    pairs: &[(Info<Global>, Info<Global>)],
) -> Result<Vec<u8>, AllocError>
    ensures { IfOk result (λ line. IsBoundLine pairs.now line.items) }
{
    let object = bound_object(alloc, pairs)?;
    let line = line_of(alloc, object)?;
    Ok(line)
}

/// A mirror that began.
fn begun_object(alloc: Global, path: &str, count: usize, text: &str) -> Result<Object, AllocError>
    ensures { IfOk result (λ o. members_in o ≡ begun path.now count text.now) }
{
    let mut object = Object::new(alloc);
    put_word(alloc, &mut object, "verdict", "begun")?;
    put_word(alloc, &mut object, "text", text)?;
    put_word(alloc, &mut object, "mirror", path)?;
    object.put("patches", Value::from(count))?;
    Ok(object)
}

/// The line of a mirror that began with so many patches, of its file, and of the plain text that says so.
pub fn begun_line(
    alloc: Global,
    path: &str,
    count: usize,
    text: &str,
) -> Result<Vec<u8>, AllocError>
    ensures { IfOk result (λ line. IsBegunLine path.now count text.now line.items) }
{
    let object = begun_object(alloc, path, count, text)?;
    let line = line_of(alloc, object)?;
    Ok(line)
}
