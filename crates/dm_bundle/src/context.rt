//! The context of a bundle.

ghost use Rattle.std.specs.Prelude.{◌≡◌, ◌≢◌, ◌≤◌, length, drop, IfOk, IfErr, MatchBool};
ghost use Rattle.dm_bundle.specs.Context.{context_word, ContextEndsAt};
ghost use Rattle.dm_bundle.specs.Faults.{ContextFaultAt};

use crate::known::Known;
use dm_info::Info;
use dm_named::text::{begins_at, info_at, skip};
use dm_named::{FaultKind, ReadFault};
use std::alloc::Allocator;

/// Whether a word is that of the context.
pub(crate) fn is_context_word(word: &[u8]) -> bool
    ensures { MatchBool result (word.now ≡ context_word) (word.now ≢ context_word) }
{
    word == b"Context:".as_slice()
}

/// All patch infos that follow one another from a place on, each after white space, and the place past the white space behind
/// them. One of a known patch is a fault.
pub(crate) fn context_at<A: Allocator + Copy>(
    alloc: A,
    known: &Known<A>,
    text: &[u8],
    start: usize,
) -> Result<(Vec<Info<A>, A>, usize), ReadFault>
    requires { start ≤ length text.now }
    ensures ok { IfOk result (λ x. ContextEndsAt known.now (drop start text.now) x.0.items (drop x.1 text.now)) }
    ensures within { IfOk result (λ x. x.1 ≤ length text.now) }
    ensures err { IfErr result (λ e. ContextFaultAt e.kind known.now (drop start text.now) (drop e.at text.now)) }
    ensures place { IfErr result (λ e. e.at ≤ length text.now) }
{
    let mut infos = Vec::new(alloc);
    let mut here = skip(text, start);
    while begins_at(text, here, b'[') {
        let (info, next) = info_at(alloc, text, here)?;
        if known.contains(&info) {
            return Err(ReadFault {
                kind: FaultKind::Doubled,
                at: here,
            });
        }
        if let Err(e) = infos.push(info) {
            return Err(ReadFault::no_memory(e.into(), here));
        }
        here = skip(text, next);
    }
    Ok((infos, here))
}
