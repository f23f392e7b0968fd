//! Sets of bytes, read from a text between brackets.
ghost use Rattle.std.specs.Prelude.{◌≡◌, ◌↔◌, ◌<◌, ◌≤◌, ◌∷◌, [], ℕ, List, length, cond, None, Some, false, IsTrue, IfNone, IfSome, slice_index_or};
ghost use Rattle.dm_tokens.specs.Sets.{Range, before, escaped, in_table, is_escape, is_quotable, is_within, ranges_of, set_of, unescaped};
ghost use Rattle.dm_tokens.specs.Pieces.{IsToken};
ghost use Rattle.dm_tokens.specs.Reading.{IsTableOf};

use std::marker::Model;

/// A set of bytes.
#[derive(Drop)]
pub struct TokenSet {
    table: [bool; 256],
}

impl Model for TokenSet {
    ghost use Rattle.std.specs.Prelude.{Bool, List};

    ghost Value = { List Bool };

    ghost view = { λ s. s.table };
}

impl TokenSet {
    /// The set that a text between brackets means; none if it means none. The brackets aren't part of the text.
    pub fn read(text: &[u8]) -> Option<TokenSet>
        ensures none { IfNone result (set_of text.now ≡ None) }
        ensures some { IfSome result (λ s. set_of text.now ≡ Some (in_table s)) }
    {
        let table = match text {
            [b'^', listed @ ..] => table_of(listed, true)?,
            _ => table_of(text, false)?,
        };
        Some(TokenSet { table })
    }

    /// Whether a byte is in the set.
    pub fn contains(&self, byte: u8) -> bool
        ensures { result ≡ in_table self.now byte }
    {
        self.table[byte as usize]
    }

    /// Whether the bytes are a token of this set.
    pub fn is_token(&self, bytes: &[u8]) -> bool
        ensures { IsTrue result ↔ IsToken (in_table self.now) bytes.now }
    {
        if bytes.is_empty() {
            return false;
        }
        bytes.iter().all(|byte| self.contains(*byte))
    }
}

/// A byte of the first reading, and the text behind what stands for it.
#[derive(Clone, Copy)]
struct Read<'t> {
    byte: u8,
    rest: &'t [u8],
}

/// A range of the second reading, and the text behind what stands for it.
#[derive(Clone, Copy)]
struct Found<'t> {
    first: u8,
    last: u8,
    rest: &'t [u8],
}

/// A table of the bytes that a text lists, or of all others.
fn table_of(text: &[u8], round: bool) -> Option<[bool; 256]>
    ensures none { IfNone result (ranges_of (unescaped text.now) ≡ None) }
    ensures some { IfSome result (λ table. (rs : List Range) × (ranges_of (unescaped text.now) ≡ Some rs) × IsTableOf round table rs) }
{
    let mut table = [round; 256];
    let mut rest = text;
    while let Some(read) = next(rest) {
        let found = next_range(&read)?;
        mark(&mut table, found.first, found.last, !round);
        rest = found.rest;
    }
    Some(table)
}

/// The first byte of the first reading.
fn next(text: &[u8]) -> Option<Read<'_>>
    ensures none { IfNone result (text.now ≡ []) }
    ensures some { IfSome result (λ r. unescaped text.now ≡ r.byte ∷ unescaped r.rest.now) }
    ensures less { IfSome result (λ r. length r.rest.now < length text.now) }
{
    match text {
        [] => None,
        [slash, byte, rest @ ..] if is_escape(*slash, *byte) => Some(Read {
            byte: escaped(*byte),
            rest,
        }),
        [byte, rest @ ..] => Some(Read { byte: *byte, rest }),
    }
}

/// The range that begins with a byte of the first reading; none if a backslash stands there that may not.
fn next_range<'t>(read: &Read<'t>) -> Option<Found<'t>>
    ensures none { IfNone result (ranges_of (read.now.byte ∷ unescaped read.now.rest.now) ≡ None) }
    ensures some { IfSome result (λ f. ranges_of (read.now.byte ∷ unescaped read.now.rest.now) ≡ before (record { first = f.first; last = f.last }) (ranges_of (unescaped f.rest.now))) }
    ensures less { IfSome result (λ f. length f.rest.now ≤ length read.now.rest.now) }
{
    let first = read.byte;
    let Some(second) = next(read.rest) else {
        return Some(Found {
            first,
            last: first,
            rest: read.rest,
        });
    };
    if first == b'\\' {
        if !is_quotable(second.byte) {
            return None;
        }
        return Some(Found {
            first: second.byte,
            last: second.byte,
            rest: second.rest,
        });
    }
    if second.byte != b'-' {
        return Some(Found {
            first,
            last: first,
            rest: read.rest,
        });
    }
    let Some(last) = next(second.rest) else {
        return Some(Found {
            first,
            last: first,
            rest: read.rest,
        });
    };
    Some(Found {
        first,
        last: last.byte,
        rest: last.rest,
    })
}

/// Puts a mark at each byte of a range.
fn mark(table: &mut [bool; 256], first: u8, last: u8, mark: bool)
    ensures { (b : ℕ) → b < 256 → slice_index_or table.new b false ≡ cond (is_within (record { first = first; last = last }) b) mark (slice_index_or table.old b false) }
{
    for byte in first as usize..last as usize + 1 {
        table[byte] = mark;
    }
}

/// Whether a backslash and a byte are an escape.
fn is_escape(slash: u8, byte: u8) -> bool
    ensures { result ≡ is_escape slash byte }
{
    slash == b'\\' && (byte == b'n' || byte == b't' || byte == b'^')
}

/// The byte that an escape stands for.
fn escaped(byte: u8) -> u8
    ensures { result ≡ escaped byte }
{
    match byte {
        b'n' => b'\n',
        b't' => b'\t',
        _ => byte,
    }
}

/// Whether a byte may stand behind a backslash.
fn is_quotable(byte: u8) -> bool
    ensures { result ≡ is_quotable byte }
{
    matches!(byte, b'.' | b'-' | b'\\')
}
