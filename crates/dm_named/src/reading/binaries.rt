//! The text of binaries after their path.

ghost use Rattle.std.specs.Prelude.{◌≡◌, ◌≤◌, ◌⊎◌, length, drop, IfOk, IfErr};
ghost use Rattle.dm_named.specs.Words.{skipped};
ghost use Rattle.dm_named.specs.Binaries.{WordAndStars, BinaryBody};
ghost use Rattle.dm_named.specs.Faults.{NoStars, BinaryFaultAt};

use crate::fault::{FaultKind, ReadFault};
use crate::reading::lines::lines_at;
use crate::reading::words::same;
use crate::text::{skip, word_at};
use dm_hex::read_content;
use dm_prim::{Binary, NoContent};
use dm_tree::{Lines, Path};
use std::alloc::Allocator;

/// The lines in hex that stand after a word, which stands after white space, and the place after them.
fn stars_at<A: Allocator + Copy>(
    alloc: A,
    word: &[u8],
    text: &[u8],
    at: usize,
) -> Result<(Lines<A>, usize), ReadFault>
    requires { at ≤ length text.now }
    ensures ok { IfOk result (λ x. WordAndStars word.now (skipped (drop at text.now)) x.0 (drop x.1 text.now)) }
    ensures within { IfOk result (λ x. x.1 ≤ length text.now) }
    ensures forward { IfOk result (λ x. at ≤ x.1) }
    ensures err { IfErr result (λ e. (e.kind ≡ FaultKind.NoMemory) ⊎ ((e.kind ≡ FaultKind.BadHex) × NoStars word.now (drop at text.now) (drop e.at text.now))) }
    ensures place { IfErr result (λ e. e.at ≤ length text.now) }
{
    let here = skip(text, at);
    let (found, after) = word_at(text, here);
    if !same(found, word) {
        return Err(ReadFault {
            kind: FaultKind::BadHex,
            at: here,
        });
    }
    let stars = skip(text, after);
    let (digits, end) = match lines_at(alloc, b'*', text, stars) {
        Ok(read) => read,
        Err(e) => return Err(ReadFault::no_memory(e, here)),
    };
    match read_content(alloc, &digits) {
        Ok(Some(lines)) => Ok((lines, end)),
        Ok(None) => Err(ReadFault {
            kind: FaultKind::BadHex,
            at: here,
        }),
        Err(e) => Err(ReadFault::no_memory(e, here)),
    }
}

/// A binary, read from after its path, and the place after it.
pub(crate) fn binary_at<A: Allocator + Copy>(
    alloc: A,
    path: Path<A>,
    text: &[u8],
    at: usize,
) -> Result<(Binary<A>, usize), ReadFault>
    requires { at ≤ length text.now }
    ensures ok { IfOk result (λ x. BinaryBody (drop at text.now) x.0.old x.0.new (drop x.1 text.now)) }
    ensures path { IfOk result (λ x. x.0.path ≡ path) }
    ensures within { IfOk result (λ x. x.1 ≤ length text.now) }
    ensures forward { IfOk result (λ x. at ≤ x.1) }
    ensures err { IfErr result (λ e. BinaryFaultAt e.kind (drop at text.now) (drop e.at text.now)) }
    ensures place { IfErr result (λ e. e.at ≤ length text.now) }
{
    let (old, mid) = stars_at(alloc, b"oldhex", text, at)?;
    let (new, end) = stars_at(alloc, b"newhex", text, mid)?;
    match Binary::new(path, old, new) {
        Ok(binary) => Ok((binary, end)),
        Err(NoContent) => unreachable!(),
    }
}
