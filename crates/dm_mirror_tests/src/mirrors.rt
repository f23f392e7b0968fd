//! Runs of plans, by their reports: that two mirrors run at once, each under its own policy; and eight posters with eight mirrors,
//! whose bundles come in any order.

use crate::asking::report_of;
use dm_mirror::{Gate, Open, Plan};
use dm_repo::Policy;
use std::alloc::Global;
use std::sync::Wait;
use std::sync::atomic::{AtomicUsize, Ordering};
use std::thread;
use std::thread::Threads;

/// Adds the directory `./d`.
const ADDS_D: &[u8] = b"New patches:\n\n[a\np**20240101000000] adddir ./d\n\nContext:\n\n";

/// Adds a file in it.
const ADDS_F: &[u8] =
    b"New patches:\n\n[b\np**20240101000000] addfile ./d/f\n\nContext:\n\n[a\np**20240101000000] \n";

/// What two mirrors report that took the first, the second, and the first again.
pub(crate) const REPORT: &[u8] =
    b"mirror 0\nbundle 0 0 taken 1\nbundle 0 1 taken 1\nbundle 0 2 nothing new\nclosed 0 yes\nclosed 1 yes\npatches 2\ndir ./d\nfile ./d/f 0\nmirror 1\nbundle 0 0 taken 1\nbundle 0 1 taken 1\nbundle 0 2 nothing new\nclosed 0 yes\nclosed 1 yes\npatches 2\ndir ./d\nfile ./d/f 0\nsent 0 0 3 yes\nsent 0 1 3 yes\nsent 1 0 0 yes\nsent 1 1 0 yes\n";

/// How often a gate looks before it gives up.
const MOST_TURNS: usize = 10_000_000;

/// Each mirror raises a flag before its first taking and waits for the other's; after it again.
#[derive(Drop)]
struct Meeting {
    raised: [AtomicUsize; 2],
    missed: AtomicUsize,
}

impl Meeting {
    /// Raises the mirror's flag, and waits until both mirrors have raised it so often.
    fn meet(&self, mirror: usize, times: usize) {
        if mirror >= 2 {
            return;
        }
        self.raised[mirror].store(times, Ordering::SeqCst);
        for _ in 0..MOST_TURNS {
            if self.raised[1 - mirror].load(Ordering::SeqCst) >= times {
                return;
            }
            thread::yield_now();
        }
        self.missed.store(1, Ordering::SeqCst);
    }
}

impl Gate for Meeting {
    fn before_take(&self, mirror: usize, taken: usize) {
        if taken == 0 {
            self.meet(mirror, 1);
        }
    }

    fn after_take(&self, mirror: usize, taken: usize) {
        if taken == 0 {
            self.meet(mirror, 2);
        }
    }
}

/// Whether this is the report of a run of these posters, with one mirror for each base and policy, where one mail waits.
fn reports<R: Threads + Wait + Sync, G: Gate + Sync>(
    rt: &R,
    alloc: Global,
    posters: &[&[&[u8]]],
    bases: &[&[u8]],
    policies: &[Policy],
    gate: &G,
    report: &[u8],
) -> bool {
    match Plan::build(alloc, posters, bases, policies, 1) {
        Ok(plan) => match report_of(rt, alloc, plan, gate) {
            Some(text) => text.as_slice() == report,
            None => false,
        },
        Err(_) => false,
    }
}

#[test]
fn mirrors_take_side_by_side(rt: HostRuntime) {
    let gate = Meeting {
        raised: [AtomicUsize::new(0), AtomicUsize::new(0)],
        missed: AtomicUsize::new(0),
    };
    let texts = [ADDS_D, ADDS_F, ADDS_D];
    let posters: [&[&[u8]]; 2] = [&texts, &[]];
    let bases: [&[u8]; 2] = [b"", b""];
    let policies = [Policy::Refuse; 2];
    let is_right = reports(&rt, rt.alloc(), &posters, &bases, &policies, &gate, REPORT);
    assert!(rt; is_right, "both took three bundles");
    assert!(rt; gate.missed.load(Ordering::SeqCst) == 0, "both mirrors met");
}

/// A file of five lines, and one more above the second.
const BASE: &[u8] =
    b"New patches:\n\n[a\np**20240101000000] {\naddfile ./f\nhunk ./f 1\n+1\n+2\n+3\n+4\n+5\n}\n[m\np**20240101000000] hunk ./f 2\n+z\n\nContext:\n\n";

/// A patch that conflicts with it, and one that adds a directory.
const CONFLICTS_IN_PART: &[u8] =
    b"New patches:\n\n[n\np**20240101000000] hunk ./f 2\n-2\n+two\n[o\np**20240101000000] adddir ./d\n\nContext:\n\n[a\np**20240101000000] \n";

/// What the two mirrors report, of which the second skips.
const SKIPPED_AT_ONE: &[u8] =
    b"mirror 0\nbundle 0 0 refused conflicts 0 1\nclosed 0 yes\nclosed 1 yes\npatches 2\nfile ./f 12\nmirror 1\nbundle 0 0 taken 1 skipped 1\nclosed 0 yes\nclosed 1 yes\npatches 3\ndir ./d\nfile ./f 12\nsent 0 0 1 yes\nsent 0 1 1 yes\nsent 1 0 0 yes\nsent 1 1 0 yes\n";

#[test]
fn each_mirror_has_its_own_policy(rt: HostRuntime) {
    let texts = [CONFLICTS_IN_PART];
    let posters: [&[&[u8]]; 2] = [&texts, &[]];
    let bases: [&[u8]; 2] = [BASE, BASE];
    let policies = [Policy::Refuse, Policy::Skip];
    let is_right = reports(
        &rt,
        rt.alloc(),
        &posters,
        &bases,
        &policies,
        &Open,
        SKIPPED_AT_ONE,
    );
    assert!(rt; is_right, "the first refuses, the second skips");
}
