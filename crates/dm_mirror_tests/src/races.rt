//! Two posters with a bundle each, which come to each of two mirrors in one order or the other.

use crate::asking::report_of;
use dm_mirror::{Open, Plan};
use dm_repo::Policy;
use std::alloc::Global;
use std::sync::Wait;
use std::thread::Threads;

/// Adds the directory `./d`.
const D: &[u8] = b"New patches:\n\n[a\np**20240101000000] adddir ./d\n\nContext:\n\n";

/// Adds it too.
const D_TOO: &[u8] = b"New patches:\n\n[c\np**20240101000000] adddir ./d\n\nContext:\n\n";

/// Adds another.
const E: &[u8] = b"New patches:\n\n[c\np**20240101000000] adddir ./e\n\nContext:\n\n";

/// What the posters sent.
const SENT: &[u8] = b"sent 0 0 1 yes\nsent 0 1 1 yes\nsent 1 0 1 yes\nsent 1 1 1 yes\n";

/// What a mirror may report of the two bundles, by which came first, and what it reports after them.
#[derive(Clone, Copy)]
struct Part {
    first: &'static [u8],
    second: &'static [u8],
    after: &'static [u8],
}

/// Both are taken.
const BOTH: Part = Part {
    first: b"bundle 0 0 taken 1\nbundle 1 0 taken 1\n",
    second: b"bundle 1 0 taken 1\nbundle 0 0 taken 1\n",
    after: b"closed 0 yes\nclosed 1 yes\npatches 2\ndir ./d\ndir ./e\n",
};

/// The one that comes second conflicts.
const ONE: Part = Part {
    first: b"bundle 0 0 taken 1\nbundle 1 0 refused conflicts 0 0\n",
    second: b"bundle 1 0 taken 1\nbundle 0 0 refused conflicts 0 0\n",
    after: b"closed 0 yes\nclosed 1 yes\npatches 1\ndir ./d\n",
};

/// What comes after the part of a mirror, if this is such a part.
fn after_part<'a>(number: &[u8], part: Part, text: &'a [u8]) -> Option<&'a [u8]> {
    let text = text.strip_prefix(number)?;
    match text.strip_prefix(part.first) {
        Some(rest) => rest.strip_prefix(part.after),
        None => text.strip_prefix(part.second)?.strip_prefix(part.after),
    }
}

/// Whether this is what two mirrors report so.
fn is_report(part: Part, text: &[u8]) -> bool {
    match after_part(b"mirror 0\n", part, text) {
        Some(rest) => after_part(b"mirror 1\n", part, rest) == Some(SENT),
        None => false,
    }
}

/// Whether two mirrors report so of what these posters send.
fn report_so<R: Threads + Wait + Sync>(
    rt: &R,
    alloc: Global,
    posters: &[&[&[u8]]],
    part: Part,
) -> bool {
    let bases: [&[u8]; 2] = [b"", b""];
    match Plan::build(alloc, posters, &bases, &[Policy::Refuse; 2], 1) {
        Ok(plan) => match report_of(rt, alloc, plan, &Open) {
            Some(text) => is_report(part, &text),
            None => false,
        },
        Err(_) => false,
    }
}

#[test]
fn bundles_come_in_either_order(rt: HostRuntime) {
    let first = [D];
    let apart = [E];
    let same = [D_TOO];
    let posters: [&[&[u8]]; 2] = [&first, &apart];
    assert!(rt;
        report_so(&rt, rt.alloc(), &posters, BOTH),
        "both are taken"
    );
    let posters: [&[&[u8]]; 2] = [&first, &same];
    assert!(rt;
        report_so(&rt, rt.alloc(), &posters, ONE),
        "one is taken, the other conflicts"
    );
}
