//! The text of hunks after their path.

ghost use Rattle.std.specs.Prelude.{◌≡◌, ◌≤◌, ℕ, List, length, drop, IfOk, IfErr};
ghost use Rattle.dm_named.specs.Words.{LineGroup};
ghost use Rattle.dm_named.specs.Patches.{HunkBody};
ghost use Rattle.dm_named.specs.Faults as faults;

use crate::fault::{FaultKind, ReadFault};
use crate::reading::lines::lines_at;
use crate::reading::numbers::number_at;
use crate::text::{begins_at, line_at};
use dm_prim::{Hunk, HunkFault};
use dm_tree::Path;
use std::alloc::Allocator;

/// The place after the lines from a place on that begin with a space.
fn skip_lines(text: &[u8], start: usize) -> usize
    requires { start ≤ length text.now }
    ensures group { (lines : List (List ℕ)) × LineGroup 32 (drop start text.now) lines (drop result text.now) }
    ensures within { result ≤ length text.now }
    ensures forward { start ≤ result }
{
    let mut at = start;
    while begins_at(text, at, b' ') {
        let (_line, next) = line_at(text, at + 1);
        at = next;
    }
    at
}

/// A hunk, read from after its path, and the place after it. `hunk` is the place of its word.
pub(crate) fn hunk_at<A: Allocator + Copy>(
    alloc: A,
    path: Path<A>,
    text: &[u8],
    hunk: usize,
    at: usize,
) -> Result<(Hunk<A>, usize), ReadFault>
    requires within_at { at ≤ length text.now }
    requires within_hunk { hunk ≤ length text.now }
    ensures ok { IfOk result (λ x. HunkBody (drop at text.now) x.0.line x.0.old x.0.new (drop x.1 text.now)) }
    ensures path { IfOk result (λ x. x.0.path ≡ path) }
    ensures within { IfOk result (λ x. x.1 ≤ length text.now) }
    ensures forward { IfOk result (λ x. at ≤ x.1) }
    ensures err { IfErr result (λ e. faults.HunkFaultAt e.kind (drop hunk text.now) (drop at text.now) (drop e.at text.now)) }
    ensures place { IfErr result (λ e. e.at ≤ length text.now) }
{
    let (line, next) = match number_at(text, at) {
        Ok(found) => found,
        Err(e) => {
            return Err(ReadFault {
                kind: FaultKind::BadNumber,
                at: e.at,
            });
        }
    };
    let olds = skip_lines(text, next);
    let (old, news) = match lines_at(alloc, b'-', text, olds) {
        Ok(found) => found,
        Err(e) => return Err(ReadFault::no_memory(e, olds)),
    };
    let (new, last) = match lines_at(alloc, b'+', text, news) {
        Ok(found) => found,
        Err(e) => return Err(ReadFault::no_memory(e, news)),
    };
    let end = skip_lines(text, last);
    match Hunk::new(path, line, old, new) {
        Ok(hunk) => Ok((hunk, end)),
        Err(HunkFault::BadLine) => unreachable!(),
        Err(HunkFault::NoChange) => Err(ReadFault {
            kind: FaultKind::EmptyHunk,
            at: hunk,
        }),
    }
}
