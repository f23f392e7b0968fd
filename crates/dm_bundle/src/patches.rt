//! The new patches of a bundle, one after the other.

ghost use Rattle.std.specs.Prelude.{◌≡◌, ◌≤◌, ◌<◌, [], ◌∷◌, ◌++◌, length, drop, Contains, IfOk, IfErr, OnOk};
ghost use Rattle.dm_info.specs.Spelling.{open_bracket};
ghost use Rattle.dm_named.specs.Words.{skipped, Begins};
ghost use Rattle.dm_named.specs.Patches.{PatchTextIn};
ghost use Rattle.dm_bundle.specs.Patches.{infos_of, SameMembers, NewPatches, AreFewWithin};
ghost use Rattle.dm_bundle.specs.Faults.{DueFaultWithin, NewPatchesFaultWithin};

use crate::known::Known;
use crate::replaces::room_after;
use dm_named::text::{begins_at, info_at, skip};
use dm_named::{FaultKind, Limits, Named, ReadFault, read_named_within};
use std::alloc::Allocator;

/// The new patches of a text, the set of their patch infos, and the place after the last patch.
#[derive(Drop)]
pub(crate) struct Start<A: Allocator> {
    pub(crate) patches: Vec<Named<A>, A>,
    pub(crate) known: Known<A>,
    pub(crate) end: usize,
}

/// The named patch at a place where one begins, after these patches. Its patch info is added to those
/// that are known.
fn patch_at<A: Allocator + Copy>(
    alloc: A,
    text: &[u8],
    here: usize,
    patches: &[Named<A>],
    known: &mut Known<A>,
    limits: Limits,
) -> Result<(Named<A>, usize), ReadFault>
    requires begins { Begins open_bracket (drop here text.now) }
    requires counted { length patches.now ≤ limits.patches }
    requires known { SameMembers known.old (infos_of patches.now) }
    ensures ok { IfOk result (λ x. PatchTextIn limits.kinds (drop here text.now) x.0 (drop x.1 text.now)) }
    ensures within { IfOk result (λ x. x.1 ≤ length text.now) }
    ensures room { OnOk result (length patches.now < limits.patches) }
    ensures few { IfOk result (λ x. length x.0.prims ≤ limits.prims) }
    ensures is_new { IfOk result (λ x. Contains (infos_of patches.now) x.0.info → ⊥) }
    ensures noted { IfOk result (λ x. SameMembers known.new (infos_of patches.now ++ x.0.info ∷ [])) }
    ensures err { IfErr result (λ e. DueFaultWithin limits e.kind patches.now (drop here text.now) (drop e.at text.now)) }
    ensures place { IfErr result (λ e. here ≤ length text.now → e.at ≤ length text.now) }
{
    if patches.len() >= limits.patches {
        return Err(ReadFault {
            kind: FaultKind::TooMany,
            at: here,
        });
    }
    // The patch info is read first on its own, so that a double is reported before a fault in the rest of the patch.
    let (info, _) = info_at(alloc, text, here)?;
    let is_new = match known.insert(info) {
        Ok(is_new) => is_new,
        Err(e) => return Err(ReadFault::no_memory(e, here)),
    };
    if !is_new {
        return Err(ReadFault {
            kind: FaultKind::Doubled,
            at: here,
        });
    }
    let (patch, next) = read_named_within(alloc, text, here, limits)?;
    Ok((patch, next))
}

/// All named patches that follow one another from a place on, each after white space.
pub(crate) fn patches_at<A: Allocator + Copy>(
    alloc: A,
    text: &[u8],
    start: usize,
    limits: Limits,
) -> Result<Start<A>, ReadFault>
    requires { start ≤ length text.now }
    ensures ok { IfOk result (λ s. NewPatches limits.kinds (drop start text.now) s.patches.items (drop s.end text.now)) }
    ensures known { IfOk result (λ s. SameMembers s.known (infos_of s.patches.items)) }
    ensures few { IfOk result (λ s. AreFewWithin limits s.patches.items) }
    ensures closed { IfOk result (λ s. Begins open_bracket (skipped (drop s.end text.now)) → ⊥) }
    ensures within { IfOk result (λ s. s.end ≤ length text.now) }
    ensures err { IfErr result (λ e. NewPatchesFaultWithin limits e.kind (drop start text.now) (drop e.at text.now)) }
    ensures place { IfErr result (λ e. e.at ≤ length text.now) }
{
    let mut patches = Vec::new(alloc);
    let mut known = Known::new(alloc);
    let mut room = limits.replaces;
    let mut end = start;
    let mut here = skip(text, end);
    while begins_at(text, here, b'[') {
        let (patch, next) = patch_at(alloc, text, here, &patches, &mut known, limits)?;
        let Some(left) = room_after(limits, room, &patch) else {
            return Err(ReadFault {
                kind: FaultKind::TooMany,
                at: next,
            });
        };
        room = left;
        if let Err(e) = patches.push(patch) {
            return Err(ReadFault::no_memory(e.into(), here));
        }
        end = next;
        here = skip(text, end);
    }
    Ok(Start {
        patches,
        known,
        end,
    })
}
