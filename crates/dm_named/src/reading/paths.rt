//! Paths as text.

ghost use Rattle.std.specs.Prelude.{◌≡◌, ◌<◌, ◌≤◌, [], List, ℕ, length, drop, map, IfOk, IfErr};
ghost use Rattle.dm_tree.specs.Limits.{most_name_bytes};
ghost use Rattle.dm_tree.specs.Validity.{IsValidPath};
ghost use Rattle.dm_named.specs.Many.{Many};
ghost use Rattle.dm_named.specs.Paths.{Piece, SlashName, IsPathText, NextPath};
ghost use Rattle.dm_named.specs.Faults.{PathFaultAt};

use crate::fault::{FaultKind, ReadFault};
use crate::reading::names::{NameFault, name_of, strip};
use crate::text::{skip, word_at};
use dm_tree::{MOST_NAMES, Path};
use memchr::memchr;
use std::alloc::Allocator;

/// The text up to the next slash, or to the end, and the rest.
fn piece_of(text: &[u8]) -> (&[u8], &[u8])
    ensures { Piece text.now result.0.now result.1.now }
{
    match memchr(b'/', text) {
        Some(i) => (&text[..i], &text[i..]),
        None => (text, &[]),
    }
}

/// The name after a slash, and the rest.
fn slash_name<A: Allocator + Copy>(alloc: A, text: &[u8]) -> Result<(Vec<u8, A>, &[u8]), NameFault>
    ensures found { IfOk result (λ x. SlashName text.now x.0.items x.1.now) }
    ensures none { IfErr result (λ e. (e ≡ NameFault.BadPath) → (name rest : List ℕ) → SlashName text.now name rest → most_name_bytes < length name) }
{
    let Some(inside) = strip(b'/', text) else {
        return Err(NameFault::BadPath);
    };
    let (piece, rest) = piece_of(inside);
    let name = name_of(alloc, piece)?;
    Ok((name, rest))
}

/// All names of a text, each after its slash. More than a path may have are a fault.
fn names_of<A: Allocator + Copy>(alloc: A, text: &[u8]) -> Result<Vec<Vec<u8, A>, A>, NameFault>
    ensures found { IfOk result (λ x. Many SlashName text.now (map (λ v. v.items) x.items) []) }
    ensures none { IfErr result (λ e. (e ≡ NameFault.BadPath) → (names : List (List ℕ)) → Many SlashName text.now names [] → IsValidPath names → ⊥) }
{
    let mut names = Vec::new(alloc);
    let mut rest = text;
    while !rest.is_empty() {
        if names.len() >= MOST_NAMES {
            return Err(NameFault::BadPath);
        }
        let (name, next) = slash_name(alloc, rest)?;
        names.push(name)?;
        rest = next;
    }
    Ok(names)
}

/// The path that a word spells.
fn path_of<A: Allocator + Copy>(alloc: A, word: &[u8]) -> Result<Path<A>, NameFault>
    ensures found { IfOk result (λ p. IsPathText word.now p) }
    ensures none { IfErr result (λ e. (e ≡ NameFault.BadPath) → (p : List (List ℕ)) → IsPathText word.now p → ⊥) }
{
    let Some(text) = strip(b'.', word) else {
        return Err(NameFault::BadPath);
    };
    let names = names_of(alloc, text)?;
    match Path::from_owned(names) {
        Ok(path) => Ok(path),
        Err(fault) => Err(NameFault::from(fault)),
    }
}

/// The path after white space, and the place after it.
pub(crate) fn path_at<A: Allocator + Copy>(
    alloc: A,
    text: &[u8],
    at: usize,
) -> Result<(Path<A>, usize), ReadFault>
    requires { at ≤ length text.now }
    ensures ok { IfOk result (λ x. NextPath (drop at text.now) x.0 (drop x.1 text.now)) }
    ensures within { IfOk result (λ x. x.1 ≤ length text.now) }
    ensures forward { IfOk result (λ x. at ≤ x.1) }
    ensures err { IfErr result (λ e. PathFaultAt e.kind (drop at text.now) (drop e.at text.now)) }
    ensures place { IfErr result (λ e. e.at ≤ length text.now) }
{
    let at = skip(text, at);
    let (word, next) = word_at(text, at);
    match path_of(alloc, word) {
        Ok(path) => Ok((path, next)),
        Err(fault) => Err(ReadFault {
            kind: FaultKind::from(fault),
            at,
        }),
    }
}
