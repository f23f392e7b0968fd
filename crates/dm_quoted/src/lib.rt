//! What a stranger wrote, as people are shown it: of what a terminal might act on, each byte is escaped as `\x1b`.
//!
//! One rule ([`is_acting`]) for all: a text in quotes, on one line ([`Quoted`]), a text of lines ([`Lines`]), and the log of `dm_log`.
#![tactic(auto)]

ghost use Rattle.std.specs.Prelude.{◌≡◌, ◌<◌, ◌==◌, ◌||◌, ◌∷◌, [], length, Some};
ghost use Rattle.std.specs.List.{flat_map};
ghost use Rattle.std.specs.Char.{encode_utf8};
ghost use Rattle.std.specs.Fmt.{WritesOnOk};
ghost use Rattle.dm_quoted.specs.Quoting.{acts, digit, escape, is_format, is_private, line_char, quoted_char, safe_char, shown_from, shown_piece};

mod manner;

use crate::manner::Manner;
use bstr::decode_utf8;
use std::fmt::{self, Display, Formatter, Write};

/// A text in quotes, on one line. A quote and a backslash get a backslash before them. Of a character that a terminal might act on,
/// and of what is no UTF-8, each byte is escaped.
#[derive(Clone, Copy)]
pub struct Quoted<'a> {
    pub text: &'a [u8],
}

/// A text of lines. Newlines and tabs stay. Of another character that a terminal might act on, and of what is no UTF-8, each byte is
/// escaped.
#[derive(Clone, Copy)]
pub struct Lines<'a> {
    pub text: &'a [u8],
}

/// Whether a terminal might act on a character, or show nothing for it.
pub fn is_acting(c: char) -> bool
    ensures { result ≡ acts c }
{
    c.is_control() || is_formatting(c) || is_private_use(c)
}

/// The format characters of the first plane (Unicode's category `Cf`), and its two separators of lines.
fn is_formatting(c: char) -> bool
    ensures { result ≡ is_format c }
{
    matches!(
        c,
        '\u{ad}'
            | '\u{600}'..='\u{605}'
            | '\u{61c}'
            | '\u{6dd}'
            | '\u{70f}'
            | '\u{890}'..='\u{891}'
            | '\u{8e2}'
            | '\u{180e}'
            | '\u{200b}'..='\u{200f}'
            | '\u{2028}'..='\u{202e}'
            | '\u{2060}'..='\u{206f}'
            | '\u{feff}'
            | '\u{fff9}'..='\u{fffb}'
    )
}

/// Those of the other planes, and the characters of private use.
fn is_private_use(c: char) -> bool
    ensures { result ≡ is_private c }
{
    matches!(
        c,
        '\u{e000}'..='\u{f8ff}'
            | '\u{110bd}'
            | '\u{110cd}'
            | '\u{13430}'..='\u{1343f}'
            | '\u{1bca0}'..='\u{1bca3}'
            | '\u{1d173}'..='\u{1d17a}'
            | '\u{e0000}'..='\u{10ffff}'
    )
}

/// Whether a character gets a backslash before it.
fn is_quoting(c: char) -> bool
    ensures { result ≡ (c == 34 || c == 92) }
{
    c == '"' || c == '\\'
}

fn digit_of(n: u8) -> char
    requires { n < 16 }
    ensures { encode_utf8 result ≡ digit n ∷ [] }
{
    if n < 10 {
        char::from(b'0' + n)
    } else {
        char::from(b'a' - 10 + n)
    }
}

fn write_escape<W: Write>(f: &mut Formatter<W>, byte: u8) -> fmt::Result
    ensures { WritesOnOk W.write_str_gives f.old result (escape byte) f.new }
{
    f.write_str("\\x")?;
    f.write_char(digit_of(byte / 16))?;
    f.write_char(digit_of(byte % 16))
}

fn write_escapes<W: Write>(f: &mut Formatter<W>, bytes: &[u8]) -> fmt::Result
    ensures { WritesOnOk W.write_str_gives f.old result (flat_map escape bytes.now) f.new }
{
    for byte in bytes {
        write_escape(f, *byte)?;
    }
    Ok(())
}

/// Writes a piece of a text: a character, or bytes that are none.
fn write_piece<W: Write>(
    f: &mut Formatter<W>,
    manner: Manner,
    found: Option<char>,
    bytes: &[u8],
) -> fmt::Result
    ensures { WritesOnOk W.write_str_gives f.old result (shown_piece manner found bytes.now) f.new }
{
    let Some(c) = found else {
        return write_escapes(f, bytes);
    };
    match manner {
        Manner::InQuotes => write_quoted_char(f, c),
        Manner::InLines => write_line_char(f, c),
    }
}

fn write_quoted_char<W: Write>(f: &mut Formatter<W>, c: char) -> fmt::Result
    ensures { WritesOnOk W.write_str_gives f.old result (quoted_char c) f.new }
{
    if is_quoting(c) {
        f.write_str("\\")?;
        return f.write_char(c);
    }
    write_safe_char(f, c)
}

fn write_line_char<W: Write>(f: &mut Formatter<W>, c: char) -> fmt::Result
    ensures { WritesOnOk W.write_str_gives f.old result (line_char c) f.new }
{
    if c == '\n' || c == '\t' {
        return f.write_char(c);
    }
    write_safe_char(f, c)
}

fn write_safe_char<W: Write>(f: &mut Formatter<W>, c: char) -> fmt::Result
    ensures { WritesOnOk W.write_str_gives f.old result (safe_char c) f.new }
{
    if is_acting(c) {
        return write_escapes(f, c.encode_utf8(&mut [0; 4]).as_bytes());
    }
    f.write_char(c)
}

fn write_pieces<W: Write>(f: &mut Formatter<W>, manner: Manner, text: &[u8]) -> fmt::Result
    ensures { WritesOnOk W.write_str_gives f.old result (shown_from manner (length text.now) text.now) f.new }
{
    let mut rest = text;
    'pieces: while !rest.is_empty() {
        let (found, size) = decode_utf8(rest);
        write_piece(f, manner, found, &rest[..size])?;
        rest = &rest[size..];
    }
    Ok(())
}

impl Display for Quoted<'_> {
    ghost use Rattle.dm_quoted.specs.Quoting.{quoted};

    ghost output = { λ q. Some (quoted q.text.now) };

    fn fmt<W: Write>(&self, f: &mut Formatter<W>) -> fmt::Result {
        f.write_char('"')?;
        write_pieces(f, Manner::InQuotes, self.text)?;
        f.write_char('"')
    }
}

impl Display for Lines<'_> {
    ghost use Rattle.dm_quoted.specs.Quoting.{lines_shown};

    ghost output = { λ l. Some (lines_shown l.text.now) };

    fn fmt<W: Write>(&self, f: &mut Formatter<W>) -> fmt::Result {
        write_pieces(f, Manner::InLines, self.text)
    }
}
