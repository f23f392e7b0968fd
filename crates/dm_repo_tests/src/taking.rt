//! Texts taken one after the other, and what becomes of the arena.

use bumpalo::Bump;
use dm_repo::{Policy, Refusal, Repo};
use dm_scratch::{Verdict, take, take_each};
use std::alloc::AllocError;
use std::mem;

/// A patch (a) that adds a file of five lines, and a patch (m) that adds a line before the second.
const TWO: &[u8] =
    b"New patches:\n\n[a\np**d] {\naddfile ./f\nhunk ./f 1\n+1\n+2\n+3\n+4\n+5\n}\n[m\np**d] hunk ./f 2\n+z\n\nContext:\n\n";

/// A patch (n) that replaces the second line, made where (a) was alone.
const CONFLICTS: &[u8] =
    b"New patches:\n\n[n\np**d] hunk ./f 2\n-2\n+two\n\nContext:\n\n[a\np**d] \n";

/// The same, and a patch (o) that replaces the fifth line.
const MIXED: &[u8] =
    b"New patches:\n\n[n\np**d] hunk ./f 2\n-2\n+two\n[o\np**d] hunk ./f 5\n-5\n+five\n\nContext:\n\n[a\np**d] \n";

#[test]
fn the_arena_is_reset_each_time(rt: HostRuntime) {
    let mut arena = Bump::new(rt.alloc());
    let mut repo = Repo::new(rt.alloc());
    let _ = take(&mut repo, &mut arena, TWO, Policy::Refuse);
    for _ in 0..10 {
        let _ = take(&mut repo, &mut arena, CONFLICTS, Policy::Refuse);
    }
    let used = arena.allocated_bytes();
    for _ in 0..100 {
        let _ = take(&mut repo, &mut arena, CONFLICTS, Policy::Refuse);
    }
    assert!(rt; arena.allocated_bytes() <= used, "no more than before");
}

#[test]
fn texts_are_taken_in_turn(rt: HostRuntime) {
    let mut arena = Bump::new(rt.alloc());
    let mut repo = Repo::new(rt.alloc());
    let mut verdicts = [Verdict::NothingNew; 2];
    let texts = [TWO, MIXED];
    take_each(&mut repo, &mut arena, &texts, Policy::Skip, &mut verdicts);
    assert!(rt; verdicts[0] == Verdict::Taken(2), "two");
    assert!(rt; verdicts[1] == Verdict::TakenSome(1, 1), "one of two");
}

#[test]
fn a_refused_reset_is_no_memory(rt: HostRuntime) -> Result<(), AllocError> {
    let mut arena = Bump::new(rt.alloc());
    let mut repo = Repo::new(rt.alloc());
    mem::forget(Box::new(&arena, 1u64)?);
    let verdict = take(&mut repo, &mut arena, TWO, Policy::Refuse);
    let refused = Verdict::Refused(Refusal::NoMemory);
    assert!(rt; verdict == refused, "a block is out");
    Ok(())
}
