//! The dependencies of a named patch as text.

ghost use Rattle.std.specs.Prelude.{◌≤◌, length, drop, IfOk, IfErr};
ghost use Rattle.dm_info.specs.Spelling.{open_bracket};
ghost use Rattle.dm_named.specs.Many.{Many};
ghost use Rattle.dm_named.specs.Words.{skipped, Begins};
ghost use Rattle.dm_named.specs.Patches.{NextInfo, Dependencies};
ghost use Rattle.dm_named.specs.Faults.{InfosFaultAt, DepsFaultAt};

use crate::fault::{FaultKind, ReadFault};
use crate::text::{begins_at, info_at, skip};
use dm_info::Info;
use std::alloc::Allocator;

/// All patch infos that follow one another from a place on, each after white space, and the place after the last.
fn infos_at<A: Allocator + Copy>(
    alloc: A,
    text: &[u8],
    start: usize,
) -> Result<(Vec<Info<A>, A>, usize), ReadFault>
    requires { start ≤ length text.now }
    ensures ok { IfOk result (λ x. Many NextInfo (drop start text.now) x.0.items (drop x.1 text.now)) }
    ensures closed { IfOk result (λ x. Begins open_bracket (skipped (drop x.1 text.now)) → ⊥) }
    ensures within { IfOk result (λ x. x.1 ≤ length text.now) }
    ensures forward { IfOk result (λ x. start ≤ x.1) }
    ensures err { IfErr result (λ e. InfosFaultAt e.kind (drop start text.now) (drop e.at text.now)) }
    ensures place { IfErr result (λ e. e.at ≤ length text.now) }
{
    let mut infos = Vec::new(alloc);
    let mut end = start;
    let mut here = skip(text, end);
    while begins_at(text, here, b'[') {
        let (info, next) = info_at(alloc, text, here)?;
        if let Err(e) = infos.push(info) {
            return Err(ReadFault::no_memory(e.into(), here));
        }
        end = next;
        here = skip(text, end);
    }
    Ok((infos, end))
}

/// Dependencies in angle brackets, or none, and the place after them.
pub(crate) fn deps_at<A: Allocator + Copy>(
    alloc: A,
    text: &[u8],
    start: usize,
) -> Result<(Vec<Info<A>, A>, usize), ReadFault>
    requires { start ≤ length text.now }
    ensures ok { IfOk result (λ x. Dependencies (drop start text.now) x.0.items (drop x.1 text.now)) }
    ensures within { IfOk result (λ x. x.1 ≤ length text.now) }
    ensures forward { IfOk result (λ x. start ≤ x.1) }
    ensures err { IfErr result (λ e. DepsFaultAt e.kind (drop start text.now) (drop e.at text.now)) }
    ensures place { IfErr result (λ e. e.at ≤ length text.now) }
{
    let here = skip(text, start);
    if !begins_at(text, here, b'<') {
        return Ok((Vec::new(alloc), start));
    }
    let (deps, end) = infos_at(alloc, text, here + 1)?;
    let close = skip(text, end);
    if !begins_at(text, close, b'>') {
        return Err(ReadFault {
            kind: FaultKind::BadDepends,
            at: close,
        });
    }
    Ok((deps, close + 1))
}
