//! The items of a named patch's body as text.

ghost use Rattle.std.specs.Prelude.{◌≤◌, length, drop, IfOk, IfErr};
ghost use Rattle.dm_named.specs.Many.{Many};
ghost use Rattle.dm_named.specs.Words.{skipped, Word, WordAmong};
ghost use Rattle.dm_named.specs.MergedPatches.{ItemText, NextItem, BodyOfItems, item_size, body_size};
ghost use Rattle.dm_named.specs.Items.{item_of, items_of};
ghost use Rattle.dm_named.specs.MergedFaults.{item_words_of, ItemFault, ItemsFault, ItemBodyFault};
ghost use Rattle.dm_named.specs.BodyWords.{item_word_of, IsItemWord};

use crate::fault::{FaultKind, ReadFault};
use crate::item::Item;
use crate::limits::Limits;
use crate::reading::bodies::{brace_fault, is_unsupported_at};
use crate::reading::conflictors::after_word;
use crate::reading::primitives::prim_at;
use crate::reading::words::{ItemWord, item_word_at};
use crate::text::{begins_at, skip};
use std::alloc::Allocator;

/// An item whose word is at `start` and ends at `at`, and the place after it.
fn item_at<A: Allocator + Copy>(
    alloc: A,
    word: ItemWord,
    text: &[u8],
    start: usize,
    at: usize,
    limits: Limits,
) -> Result<(Item<A>, usize), ReadFault>
    requires word { Word (drop start text.now) (item_word_of word) (drop at text.now) }
    requires of_kinds { IsItemWord limits.kinds word }
    requires within_start { start ≤ length text.now }
    requires within_at { at ≤ length text.now }
    ensures ok { IfOk result (λ x. ItemText limits.kinds (drop start text.now) (item_of x.0) (drop x.1 text.now)) }
    ensures few { IfOk result (λ x. item_size (item_of x.0) ≤ limits.prims) }
    ensures within { IfOk result (λ x. x.1 ≤ length text.now) }
    ensures forward { IfOk result (λ x. at ≤ x.1) }
    ensures err { IfErr result (λ e. ItemFault limits e.kind (drop start text.now) (drop e.at text.now)) }
    ensures place { IfErr result (λ e. e.at ≤ length text.now) }
{
    match word {
        ItemWord::Prim(word) => {
            if limits.prims == 0 {
                return Err(ReadFault {
                    kind: FaultKind::TooMany,
                    at: start,
                });
            }
            let (prim, next) = prim_at(alloc, word, text, start, at)?;
            Ok((Item::Plain(prim), next))
        }
        ItemWord::Conflictor => {
            let (conflictor, next) = after_word(alloc, text, start, at, limits)?;
            Ok((Item::Conflicted(conflictor), next))
        }
    }
}

/// All items that follow one another from a place on, each after white space, and the place after the last.
fn items_at<A: Allocator + Copy>(
    alloc: A,
    text: &[u8],
    start: usize,
    limits: Limits,
) -> Result<(Vec<Item<A>, A>, usize), ReadFault>
    requires { start ≤ length text.now }
    ensures ok { IfOk result (λ x. Many (NextItem limits.kinds) (drop start text.now) (items_of x.0.items) (drop x.1 text.now)) }
    ensures closed { IfOk result (λ x. WordAmong (item_words_of limits.kinds) (skipped (drop x.1 text.now)) → ⊥) }
    ensures few { IfOk result (λ x. body_size (items_of x.0.items) ≤ limits.prims) }
    ensures within { IfOk result (λ x. x.1 ≤ length text.now) }
    ensures forward { IfOk result (λ x. start ≤ x.1) }
    ensures err { IfErr result (λ e. ItemsFault limits e.kind (drop start text.now) (drop e.at text.now)) }
    ensures place { IfErr result (λ e. e.at ≤ length text.now) }
{
    let mut items = Vec::new(alloc);
    let mut end = start;
    let mut left = limits;
    while let Some((word, here, next)) = item_word_at(text, end, limits.kinds) {
        let (item, after) = item_at(alloc, word, text, here, next, left)?;
        left = left.less(item.size(left.prims));
        if let Err(e) = items.push(item) {
            return Err(ReadFault::no_memory(e.into(), here));
        }
        end = after;
    }
    Ok((items, end))
}

/// The items of a body, and the place after it.
pub(crate) fn body_of_items_at<A: Allocator + Copy>(
    alloc: A,
    text: &[u8],
    start: usize,
    limits: Limits,
) -> Result<(Vec<Item<A>, A>, usize), ReadFault>
    requires { start ≤ length text.now }
    ensures ok { IfOk result (λ x. BodyOfItems limits.kinds (drop start text.now) (items_of x.0.items) (drop x.1 text.now)) }
    ensures few { IfOk result (λ x. body_size (items_of x.0.items) ≤ limits.prims) }
    ensures within { IfOk result (λ x. x.1 ≤ length text.now) }
    ensures forward { IfOk result (λ x. start ≤ x.1) }
    ensures err { IfErr result (λ e. ItemBodyFault limits e.kind (drop start text.now) (drop e.at text.now)) }
    ensures place { IfErr result (λ e. e.at ≤ length text.now) }
{
    let here = skip(text, start);
    if begins_at(text, here, b'{') {
        let (items, end) = items_at(alloc, text, here + 1, limits)?;
        let close = skip(text, end);
        if begins_at(text, close, b'}') {
            return Ok((items, close + 1));
        }
        return Err(ReadFault {
            kind: brace_fault(text, close, limits.kinds),
            at: close,
        });
    }
    let (items, end) = items_at(alloc, text, start, limits)?;
    let next = skip(text, end);
    if is_unsupported_at(text, next, limits.kinds) {
        return Err(ReadFault {
            kind: FaultKind::Unsupported,
            at: next,
        });
    }
    Ok((items, end))
}
