//! What is wrong with a text, as JSON.
ghost use Rattle.std.specs.Prelude.{◌≡◌, ◌+◌, ◌-◌, ℕ, length, take, IfOk};
ghost use Rattle.dm_explain.specs.Places.{IsLineStart, newlines};
ghost use Rattle.dm_log.specs.JsonObjects.{members_in};
ghost use Rattle.dm_told.specs.Told.{TellsFault};

use crate::named::{of_verdict, put_word};
use dm_deliver::Answer;
use dm_explain::place_of;
use dm_log::Object;
use serde_json::Value;
use std::alloc::{AllocError, Global};

/// What stands before a byte.
fn before<'a>(text: &'a [u8], at: usize) -> &'a [u8]
    ensures { result.now ≡ take at text.now }
{
    if at < text.len() { &text[..at] } else { text }
}

/// The line and the column of a byte.
fn place_at(text: &[u8], at: usize) -> (usize, usize)
    ensures { (start : ℕ) × IsLineStart (take at text.now) start ×
        (result.0 ≡ newlines (take at text.now) + 1) × (result.1 ≡ length (take at text.now) - start + 1) }
{
    let before = before(text, at);
    let place = place_of(before, before.len());
    (place.line, before.len() - place.start + 1)
}

/// A fault of a text, at a byte.
pub(crate) fn fault_object(
    alloc: Global,
    word: &str,
    text: &[u8],
    at: usize,
    answer: Answer,
) -> Result<Object, AllocError>
    ensures { IfOk result (λ o. TellsFault word.now text.now at answer (members_in o)) }
{
    let (line, column) = place_at(text, at);
    let mut object = of_verdict(alloc, "malformed", answer)?;
    put_word(alloc, &mut object, "why", word)?;
    object.put("offset", Value::from(at))?;
    object.put("line", Value::from(line))?;
    object.put("column", Value::from(column))?;
    Ok(object)
}
