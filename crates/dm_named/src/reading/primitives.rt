//! Primitive patches as text.

ghost use Rattle.std.specs.Prelude.{◌≤◌, length, drop, IfOk, IfErr};
ghost use Rattle.dm_prim.specs.Prims.{prim_of, prims_of};
ghost use Rattle.dm_named.specs.Many.{Many};
ghost use Rattle.dm_named.specs.Words.{skipped, Word, WordAmong};
ghost use Rattle.dm_named.specs.Patches.{PrimText, NextPrim, prim_words_of};
ghost use Rattle.dm_named.specs.Faults.{PrimFaultAt, PrimsFaultWithin};
ghost use Rattle.dm_named.specs.BodyWords.{path_word_of, word_of};

use crate::fault::{FaultKind, ReadFault};
use crate::limits::Limits;
use crate::reading::binaries::binary_at;
use crate::reading::hunks::hunk_at;
use crate::reading::paths::path_at;
use crate::reading::preferences::preference_at;
use crate::reading::replaces::replace_at;
use crate::reading::words::{AtPath, PrimWord, prim_word_at};
use dm_prim::Prim;
use std::alloc::Allocator;

/// A primitive with a path whose word is at `start` and ends at `at`, and the place after it.
fn with_path_at<A: Allocator + Copy>(
    alloc: A,
    word: AtPath,
    text: &[u8],
    start: usize,
    at: usize,
) -> Result<(Prim<A>, usize), ReadFault>
    requires word { Word (drop start text.now) (path_word_of word) (drop at text.now) }
    requires within_start { start ≤ length text.now }
    requires within_at { at ≤ length text.now }
    ensures ok { IfOk result (λ x. PrimText (drop start text.now) (prim_of x.0) (drop x.1 text.now)) }
    ensures within { IfOk result (λ x. x.1 ≤ length text.now) }
    ensures forward { IfOk result (λ x. at ≤ x.1) }
    ensures err { IfErr result (λ e. PrimFaultAt e.kind (drop start text.now) (drop e.at text.now)) }
    ensures place { IfErr result (λ e. e.at ≤ length text.now) }
{
    let (path, next) = path_at(alloc, text, at)?;
    match word {
        AtPath::AddFile => Ok((Prim::AddFile(path), next)),
        AtPath::RmFile => Ok((Prim::RmFile(path), next)),
        AtPath::AddDir => Ok((Prim::AddDir(path), next)),
        AtPath::RmDir => Ok((Prim::RmDir(path), next)),
        AtPath::Move => {
            let (to, next) = path_at(alloc, text, next)?;
            Ok((Prim::Move(path, to), next))
        }
        AtPath::Hunk => {
            let (hunk, next) = hunk_at(alloc, path, text, start, next)?;
            Ok((Prim::Hunk(hunk), next))
        }
        AtPath::Binary => {
            let (binary, next) = binary_at(alloc, path, text, next)?;
            Ok((Prim::Binary(binary), next))
        }
        AtPath::Replace => {
            let (replace, next) = replace_at(alloc, path, text, next)?;
            Ok((Prim::Replace(replace), next))
        }
    }
}

/// A primitive whose word is at `start` and ends at `at`, and the place after it.
pub(crate) fn prim_at<A: Allocator + Copy>(
    alloc: A,
    word: PrimWord,
    text: &[u8],
    start: usize,
    at: usize,
) -> Result<(Prim<A>, usize), ReadFault>
    requires word { Word (drop start text.now) (word_of word) (drop at text.now) }
    requires within_start { start ≤ length text.now }
    requires within_at { at ≤ length text.now }
    ensures ok { IfOk result (λ x. PrimText (drop start text.now) (prim_of x.0) (drop x.1 text.now)) }
    ensures within { IfOk result (λ x. x.1 ≤ length text.now) }
    ensures forward { IfOk result (λ x. at ≤ x.1) }
    ensures err { IfErr result (λ e. PrimFaultAt e.kind (drop start text.now) (drop e.at text.now)) }
    ensures place { IfErr result (λ e. e.at ≤ length text.now) }
{
    match word {
        PrimWord::AtPath(word) => with_path_at(alloc, word, text, start, at),
        PrimWord::ChangePref => {
            let (change, next) = preference_at(alloc, text, at)?;
            Ok((Prim::ChangePref(change), next))
        }
    }
}

/// All primitives of the kinds that are read that follow one another from a place on, each after white space, and the place after the last.
pub(crate) fn prims_at<A: Allocator + Copy>(
    alloc: A,
    text: &[u8],
    start: usize,
    limits: Limits,
) -> Result<(Vec<Prim<A>, A>, usize), ReadFault>
    requires { start ≤ length text.now }
    ensures ok { IfOk result (λ x. Many (NextPrim limits.kinds) (drop start text.now) (prims_of x.0.items) (drop x.1 text.now)) }
    ensures closed { IfOk result (λ x. WordAmong (prim_words_of limits.kinds) (skipped (drop x.1 text.now)) → ⊥) }
    ensures few { IfOk result (λ x. length (prims_of x.0.items) ≤ limits.prims) }
    ensures within { IfOk result (λ x. x.1 ≤ length text.now) }
    ensures forward { IfOk result (λ x. start ≤ x.1) }
    ensures err { IfErr result (λ e. PrimsFaultWithin limits e.kind (drop start text.now) (drop e.at text.now)) }
    ensures place { IfErr result (λ e. e.at ≤ length text.now) }
{
    let mut prims = Vec::new(alloc);
    let mut end = start;
    while let Some((word, here, next)) = prim_word_at(text, end, limits.kinds) {
        if prims.len() >= limits.prims {
            return Err(ReadFault {
                kind: FaultKind::TooMany,
                at: here,
            });
        }
        let (prim, after) = prim_at(alloc, word, text, here, next)?;
        if let Err(e) = prims.push(prim) {
            return Err(ReadFault::no_memory(e.into(), here));
        }
        end = after;
    }
    Ok((prims, end))
}
