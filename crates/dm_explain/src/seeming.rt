//! What a text that is no bundle may be instead. It is a guess, and nothing rests on it.
use bstr::ByteSlice;
use std::fmt::{self, Display, Formatter, Write};

/// What a text that is no bundle looks like.
#[derive(Clone, Copy, PartialEq, Eq, Debug)]
pub(crate) enum Seeming {
    /// Nothing but white space, or nothing at all.
    Empty,
    /// What `gzip` wrote.
    Gzip,
    /// A page of HTML.
    Html,
    /// What `gpg` signed or encrypted.
    Signed,
    /// What `darcs log --context` wrote.
    Context,
    /// The file of a mirror.
    Mirror,
    /// Text in two bytes a character.
    Utf16,
    /// What `git bundle` wrote.
    GitBundle,
    /// What `git format-patch` wrote.
    GitMail,
    /// What `diff` or `git diff` wrote.
    Diff,
    /// A bundle in an answer to a mail, each of its lines behind a mark.
    Quoted,
    /// A mail with its headers.
    Mail,
    /// Lines that end in a carriage return and a newline.
    Crlf,
}

/// The words that a header of a mail begins with.
const HEADERS: [&[u8]; 10] = [
    b"From ",
    b"From:",
    b"Return-Path:",
    b"Received:",
    b"Delivered-To:",
    b"Message-ID:",
    b"MIME-Version:",
    b"Content-Type:",
    b"Subject:",
    b"Date:",
];

/// Whether a text begins with one of the headers of a mail.
fn begins_as_mail(text: &[u8]) -> bool {
    HEADERS.iter().any(|header| text.starts_with(header))
}

/// Whether a text begins as a page of HTML does.
fn begins_as_html(text: &[u8]) -> bool {
    if text.starts_with(b"<!DOCTYPE".as_slice()) {
        return true;
    }
    if text.starts_with(b"<!doctype".as_slice()) {
        return true;
    }
    text.starts_with(b"<html".as_slice())
}

/// Whether a text has a part of a mail somewhere, encoded for the way.
fn has_mail_part(text: &[u8]) -> bool {
    if text.find(b"\nContent-Transfer-Encoding:").is_some() {
        return true;
    }
    text.find(b"=3D\n").is_some()
}

/// Whether a text begins as text in two bytes a character does.
fn begins_as_utf16(text: &[u8]) -> bool {
    text.starts_with(b"\xff\xfe".as_slice()) || text.starts_with(b"\xfe\xff".as_slice())
}

/// Whether a text begins as a diff does.
fn begins_as_diff(text: &[u8]) -> bool {
    if text.starts_with(b"diff -".as_slice()) {
        return true;
    }
    if text.starts_with(b"Index: ".as_slice()) {
        return true;
    }
    text.starts_with(b"--- ".as_slice())
}

/// Whether a bundle stands in a text, with a mark before each line.
fn has_quoted_bundle(text: &[u8]) -> bool {
    if text.starts_with(b"> New patches:".as_slice()) {
        return true;
    }
    text.find(b"\n> New patches:").is_some()
}

/// Whether the line with which new patches begin ends in a carriage return.
fn has_crlf_heading(text: &[u8]) -> bool {
    if text.starts_with(b"New patches:\r\n".as_slice()) {
        return true;
    }
    text.find(b"\nNew patches:\r\n").is_some()
}

/// Whether a line is a bundle's own, and not one of a file in a hunk, and ends in a carriage return.
fn is_crlf_line(line: &[u8]) -> bool {
    match line {
        [b'+' | b'-' | b' ', ..] => false,
        _ => line.ends_with(b"\r".as_slice()),
    }
}

/// What a text looks like in whose line a bundle ends to be one, if that is known.
pub(crate) fn seeming_at(text: &[u8], line: &[u8]) -> Option<Seeming> {
    if let Some(seeming) = seeming_of(text) {
        return Some(seeming);
    }
    if is_crlf_line(line) {
        return Some(Seeming::Crlf);
    }
    None
}

/// What a text of another tool than darcs looks like, if that is known.
fn foreign_seeming(text: &[u8]) -> Option<Seeming> {
    if begins_as_utf16(text) {
        return Some(Seeming::Utf16);
    }
    if text.starts_with(b"# v".as_slice()) && text.find(b" git bundle\n").is_some() {
        return Some(Seeming::GitBundle);
    }
    if begins_as_diff(text) {
        return Some(Seeming::Diff);
    }
    if begins_as_mail(text) && text.find(b"\ndiff --git ").is_some() {
        return Some(Seeming::GitMail);
    }
    None
}

/// Whether a line of a text begins with a dash as `gpg --clearsign` writes it. It is a guess: a hunk may have such a line.
pub fn has_signed_dashes(text: &[u8]) -> bool {
    text.find(b"\n- -").is_some()
}

/// What a text that is no bundle looks like, if that is known.
pub(crate) fn seeming_of(text: &[u8]) -> Option<Seeming> {
    let begun = text.trim_start();
    if begun.is_empty() {
        return Some(Seeming::Empty);
    }
    if text.starts_with(b"\x1f\x8b".as_slice()) {
        return Some(Seeming::Gzip);
    }
    // What the file of a mirror begins with, in each version (`dm_journal`).
    if text.starts_with(b"dm journal ".as_slice()) {
        return Some(Seeming::Mirror);
    }
    if begins_as_html(begun) {
        return Some(Seeming::Html);
    }
    if let Some(foreign) = foreign_seeming(begun) {
        return Some(foreign);
    }
    if text.find(b"-----BEGIN PGP").is_some() {
        return Some(Seeming::Signed);
    }
    if begun.starts_with(b"Context:".as_slice()) {
        return Some(Seeming::Context);
    }
    if has_quoted_bundle(text) {
        return Some(Seeming::Quoted);
    }
    if begins_as_mail(begun) || has_mail_part(text) {
        return Some(Seeming::Mail);
    }
    if has_crlf_heading(text) {
        return Some(Seeming::Crlf);
    }
    None
}

impl Seeming {
    /// Whether it says what to do.
    pub(crate) fn has_step(self) -> bool {
        match self {
            Seeming::Empty | Seeming::Context | Seeming::GitBundle | Seeming::GitMail => false,
            _ => true,
        }
    }
}

impl Display for Seeming {
    fn fmt<W: Write>(&self, f: &mut Formatter<W>) -> fmt::Result {
        f.write_str(match self {
            Seeming::Empty => "The input is empty.",
            Seeming::Gzip => "It looks like a gzip file: give dm what `gzip -dc` makes of it.",
            Seeming::Html => "It looks like an HTML page: save the bundle itself, as plain text.",
            Seeming::Signed => {
                "It looks like a signed or encrypted bundle: give dm what `gpg --decrypt` makes of it."
            }
            Seeming::Context => {
                "It looks like a context, as `darcs log --context` writes it: it has no new patches."
            }
            Seeming::Mirror => "It looks like the file of a mirror: name it by `--mirror FILE`.",
            Seeming::Utf16 => {
                "It looks like UTF-16: save it as it was sent, or give dm what `iconv -f utf-16 -t utf-8` makes of it."
            }
            Seeming::GitBundle => "It looks like a bundle of git, which dm doesn't read.",
            Seeming::GitMail => "It looks like a patch of git, which dm doesn't read.",
            Seeming::Diff => "It looks like a diff: dm reads what `darcs send -o FILE` writes.",
            Seeming::Quoted => {
                "It looks like a quoted mail, with `> ` before each line: ask for the bundle itself."
            }
            Seeming::Mail => "It looks like a mail: save the attachment, and give that to dm.",
            Seeming::Crlf => {
                "Its lines end in CR LF: turn them with `tr -d '\\r'`, or save the file as it was sent."
            }
        })
    }
}
