//! JSON objects that are built member by member.
ghost use Rattle.std.specs.Prelude.{◌≡◌, ◌++◌, IfOk, IsUtf8, OnOk, codes};
ghost use Rattle.std.specs.List.{flat_map, list_all};
ghost use Rattle.std.specs.Str.{is_utf8};
ghost use Rattle.serde_json.specs.Data.{no_members, object, put, string};
ghost use Rattle.serde_json.specs.View.{view};
ghost use Rattle.dm_log.specs.Shown.{shown_byte};
ghost use Rattle.dm_log.specs.Json.{in_hex, readable, texts, with_lines, with_text};
ghost use Rattle.dm_log.specs.JsonObjects.{members_in};

use crate::entry::push_hex;
use crate::shown::push_bytes;
use dm_tree::Lines;
use serde_json::{Map, Value};
use std::alloc::{AllocError, Allocator, Global};
use std::str;

/// The value of a text in UTF-8.
pub(crate) fn text_value(text: Vec<u8>) -> Value
    requires { IsUtf8 text.items }
    ensures { view result ≡ string text.items }
{
    match String::from_utf8(text) {
        Ok(text) => Value::String(text),
        Err(_) => unreachable!(),
    }
}

/// The value of a text's bytes in hex.
pub(crate) fn hex_value(alloc: Global, bytes: &[u8]) -> Result<Value, AllocError>
    ensures { IfOk result (λ v. view v ≡ string (in_hex bytes.now)) }
{
    let mut text = Vec::new(alloc);
    push_hex(bytes, &mut text)?;
    Ok(text_value(text))
}

/// The value of a text that isn't UTF-8, its bytes escaped where need be.
fn escaped_value(alloc: Global, bytes: &[u8]) -> Result<Value, AllocError>
    ensures { IfOk result (λ v. view v ≡ string (flat_map shown_byte bytes.now)) }
{
    let mut text = Vec::new(alloc);
    push_bytes(bytes, &mut text)?;
    Ok(text_value(text))
}

/// The value of a text.
fn readable_value(alloc: Global, text: &[u8]) -> Result<Value, AllocError>
    ensures { IfOk result (λ v. view v ≡ string (readable text.now)) }
{
    match str::from_utf8(text) {
        Ok(text) => Value::try_from_str(alloc, text),
        Err(_) => escaped_value(alloc, text),
    }
}

/// Whether a text is UTF-8.
fn is_utf8(text: &[u8]) -> bool
    ensures { result ≡ is_utf8 text.now }
{
    str::from_utf8(text).is_ok()
}

/// Whether all lines are UTF-8.
fn are_utf8<A: Allocator>(lines: &Lines<A>) -> bool
    ensures { result ≡ list_all is_utf8 lines.now }
{
    for i in 0..lines.len() {
        if !is_utf8(lines.line(i)) {
            return false;
        }
    }
    true
}

/// The value of lines.
fn readable_lines<A: Allocator>(alloc: Global, lines: &Lines<A>) -> Result<Value, AllocError>
    ensures { IfOk result (λ v. view v ≡ texts readable lines.now) }
{
    let mut list = Vec::new(alloc);
    for i in 0..lines.len() {
        list.push(readable_value(alloc, lines.line(i))?)?;
    }
    Ok(Value::Array(list))
}

/// The value of the lines' bytes in hex.
fn hex_lines<A: Allocator>(alloc: Global, lines: &Lines<A>) -> Result<Value, AllocError>
    ensures { IfOk result (λ v. view v ≡ texts in_hex lines.now) }
{
    let mut list = Vec::new(alloc);
    for i in 0..lines.len() {
        list.push(hex_value(alloc, lines.line(i))?)?;
    }
    Ok(Value::Array(list))
}

/// A JSON object that is built.
#[derive(Drop)]
pub struct Object {
    alloc: Global,
    members: Map<String, Value>,
}

impl Object {
    /// An object without members.
    pub fn new(alloc: Global) -> Object
        ensures { members_in result ≡ no_members }
    {
        Object {
            alloc,
            members: Map::new(alloc),
        }
    }

    /// The object as a value.
    pub fn into_value(self) -> Value
        ensures { view result ≡ object (members_in self) }
    {
        Value::Object(self.members)
    }

    /// Sets a member.
    pub fn put(&mut self, name: &str, value: Value) -> Result<(), AllocError>
        ensures { OnOk result (members_in self.new ≡ put name.now (view value) (members_in self.old)) }
    {
        serde_json::put(&mut self.members, self.alloc, name, value)
    }

    /// Sets the member whose name has `_hex` behind it.
    fn put_hex(&mut self, name: &str, value: Value) -> Result<(), AllocError>
        ensures { OnOk result (members_in self.new ≡ put (name.now ++ codes "_hex") (view value) (members_in self.old)) }
    {
        let hex_name = format!(in self.alloc; "{name}_hex")?;
        self.put(hex_name.as_str(), value)
    }

    /// Sets a member to a text, and another one to its bytes in hex if it isn't UTF-8.
    pub fn put_text(&mut self, name: &str, text: &[u8]) -> Result<(), AllocError>
        ensures { OnOk result (members_in self.new ≡ with_text name.now text.now (members_in self.old)) }
    {
        self.put(name, readable_value(self.alloc, text)?)?;
        if is_utf8(text) {
            return Ok(());
        }
        self.put_hex(name, hex_value(self.alloc, text)?)
    }

    /// Sets a member to lines, and another one to their bytes in hex if one of them isn't UTF-8.
    pub(crate) fn put_lines<A: Allocator>(
        &mut self,
        name: &str,
        lines: &Lines<A>,
    ) -> Result<(), AllocError>
        ensures { OnOk result (members_in self.new ≡ with_lines name.now lines.now (members_in self.old)) }
    {
        self.put(name, readable_lines(self.alloc, lines)?)?;
        if are_utf8(lines) {
            return Ok(());
        }
        self.put_hex(name, hex_lines(self.alloc, lines)?)
    }
}
