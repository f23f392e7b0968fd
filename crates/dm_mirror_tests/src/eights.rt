//! Eight posters and eight mirrors, where one mail waits: what each mirror reports is known but for the order of the bundles.

use crate::asking::report_of;
use dm_mirror::{Open, Plan};
use dm_repo::Policy;
use std::alloc::Global;
use std::sync::Wait;
use std::thread::Threads;

/// The bundles of the posters: each adds a directory of its own.
const ADDS: [&[u8]; 8] = [
    b"New patches:\n\n[0\np**20240101000000] adddir ./0\n\nContext:\n\n",
    b"New patches:\n\n[1\np**20240101000000] adddir ./1\n\nContext:\n\n",
    b"New patches:\n\n[2\np**20240101000000] adddir ./2\n\nContext:\n\n",
    b"New patches:\n\n[3\np**20240101000000] adddir ./3\n\nContext:\n\n",
    b"New patches:\n\n[4\np**20240101000000] adddir ./4\n\nContext:\n\n",
    b"New patches:\n\n[5\np**20240101000000] adddir ./5\n\nContext:\n\n",
    b"New patches:\n\n[6\np**20240101000000] adddir ./6\n\nContext:\n\n",
    b"New patches:\n\n[7\np**20240101000000] adddir ./7\n\nContext:\n\n",
];

/// What a mirror reports of the bundles, in the order of the posters.
const TAKEN: &[u8] =
    b"bundle 0 0 taken 1\nbundle 1 0 taken 1\nbundle 2 0 taken 1\nbundle 3 0 taken 1\nbundle 4 0 taken 1\nbundle 5 0 taken 1\nbundle 6 0 taken 1\nbundle 7 0 taken 1\n";

/// How long each of these lines is.
const LINE: usize = 19;

/// What a mirror reports after the bundles.
const AFTER: &[u8] =
    b"closed 0 yes\nclosed 1 yes\nclosed 2 yes\nclosed 3 yes\nclosed 4 yes\nclosed 5 yes\nclosed 6 yes\nclosed 7 yes\npatches 8\ndir ./0\ndir ./1\ndir ./2\ndir ./3\ndir ./4\ndir ./5\ndir ./6\ndir ./7\n";

/// The numbers of the mirrors.
const NUMBERS: [&[u8]; 8] = [
    b"mirror 0\n",
    b"mirror 1\n",
    b"mirror 2\n",
    b"mirror 3\n",
    b"mirror 4\n",
    b"mirror 5\n",
    b"mirror 6\n",
    b"mirror 7\n",
];

/// What the posters sent.
const SENT: [&[u8]; 8] = [
    b"sent 0 0 1 yes\nsent 0 1 1 yes\nsent 0 2 1 yes\nsent 0 3 1 yes\nsent 0 4 1 yes\nsent 0 5 1 yes\nsent 0 6 1 yes\nsent 0 7 1 yes\n",
    b"sent 1 0 1 yes\nsent 1 1 1 yes\nsent 1 2 1 yes\nsent 1 3 1 yes\nsent 1 4 1 yes\nsent 1 5 1 yes\nsent 1 6 1 yes\nsent 1 7 1 yes\n",
    b"sent 2 0 1 yes\nsent 2 1 1 yes\nsent 2 2 1 yes\nsent 2 3 1 yes\nsent 2 4 1 yes\nsent 2 5 1 yes\nsent 2 6 1 yes\nsent 2 7 1 yes\n",
    b"sent 3 0 1 yes\nsent 3 1 1 yes\nsent 3 2 1 yes\nsent 3 3 1 yes\nsent 3 4 1 yes\nsent 3 5 1 yes\nsent 3 6 1 yes\nsent 3 7 1 yes\n",
    b"sent 4 0 1 yes\nsent 4 1 1 yes\nsent 4 2 1 yes\nsent 4 3 1 yes\nsent 4 4 1 yes\nsent 4 5 1 yes\nsent 4 6 1 yes\nsent 4 7 1 yes\n",
    b"sent 5 0 1 yes\nsent 5 1 1 yes\nsent 5 2 1 yes\nsent 5 3 1 yes\nsent 5 4 1 yes\nsent 5 5 1 yes\nsent 5 6 1 yes\nsent 5 7 1 yes\n",
    b"sent 6 0 1 yes\nsent 6 1 1 yes\nsent 6 2 1 yes\nsent 6 3 1 yes\nsent 6 4 1 yes\nsent 6 5 1 yes\nsent 6 6 1 yes\nsent 6 7 1 yes\n",
    b"sent 7 0 1 yes\nsent 7 1 1 yes\nsent 7 2 1 yes\nsent 7 3 1 yes\nsent 7 4 1 yes\nsent 7 5 1 yes\nsent 7 6 1 yes\nsent 7 7 1 yes\n",
];

/// Whether these are the lines of the bundles, each once, in any order.
fn are_bundles(lines: &[u8]) -> bool {
    for line in TAKEN.chunks(LINE) {
        if !lines.chunks(LINE).any(|other| other == line) {
            return false;
        }
    }
    lines.len() == TAKEN.len()
}

/// What comes after the part of a mirror, if this is such a part.
fn after_mirror<'a>(number: &[u8], text: &'a [u8]) -> Option<&'a [u8]> {
    let text = text.strip_prefix(number)?;
    let lines = text.get(..TAKEN.len())?;
    if !are_bundles(lines) {
        return None;
    }
    text.get(TAKEN.len()..)?.strip_prefix(AFTER)
}

/// Whether this is what eight mirrors report, with what eight posters sent.
fn is_report(text: &[u8]) -> bool {
    let mut rest = text;
    for number in &NUMBERS {
        match after_mirror(number, rest) {
            Some(after) => rest = after,
            None => return false,
        }
    }
    for sent in &SENT {
        match rest.strip_prefix(*sent) {
            Some(after) => rest = after,
            None => return false,
        }
    }
    rest.is_empty()
}

/// Whether eight mirrors report so.
fn run_reports<R: Threads + Wait + Sync>(rt: &R, alloc: Global, plan: Plan) -> bool {
    match report_of(rt, alloc, plan, &Open) {
        Some(text) => is_report(&text),
        None => false,
    }
}

#[test]
fn eight_posters_send_to_eight_mirrors(rt: HostRuntime) {
    let posters: [&[&[u8]]; 8] = [
        &ADDS[..1],
        &ADDS[1..2],
        &ADDS[2..3],
        &ADDS[3..4],
        &ADDS[4..5],
        &ADDS[5..6],
        &ADDS[6..7],
        &ADDS[7..],
    ];
    let bases: [&[u8]; 8] = [b""; 8];
    let answer = Plan::build(rt.alloc(), &posters, &bases, &[Policy::Refuse; 8], 1);
    match answer {
        Ok(plan) => assert!(rt; run_reports(&rt, rt.alloc(), plan), "each mirror took all"),
        Err(_) => assert!(rt; false, "a plan"),
    }
}
