//! What only tests call of a repository: each call once, where memory is ample.

use crate::asking::take_both;
use bumpalo::Bump;
use dm_bundle::{Bundle, read_bundle};
use dm_repo::{Policy, Repo, Weighed, split, weigh};
use dm_scratch::take;
use std::alloc::Global;

/// A patch (a) that adds a file of five lines, and a patch (m) that adds two lines above them.
const BASE: &[u8] =
    b"New patches:\n\n[a\np**d] {\naddfile ./f\nhunk ./f 1\n+1\n+2\n+3\n+4\n+5\n}\n[m\np**d] hunk ./f 1\n+x\n+y\n\nContext:\n\n";

/// A patch (n) that replaces the fifth line, made where (a) was alone.
const MORE: &[u8] = b"New patches:\n\n[n\np**d] hunk ./f 5\n-5\n+five\n\nContext:\n\n[a\np**d] \n";

/// The repository of `BASE`.
fn base_of(alloc: Global) -> Repo<Global> {
    let mut arena = Bump::new(alloc);
    let mut repo = Repo::new(alloc);
    let _ = take(&mut repo, &mut arena, BASE, Policy::Refuse);
    repo
}

/// How many patches stand in the front, and how many in the rest.
fn counts(heap: Global, repo: &Repo<Global>, bundle: &Bundle<Global>) -> (usize, usize) {
    match split(heap, repo, bundle) {
        Ok(parted) => (parted.front.len(), parted.rest.len()),
        Err(_) => (0, 0),
    }
}

/// How many patches would be appended.
fn appended(heap: Global, repo: &Repo<Global>, bundle: &Bundle<Global>) -> usize {
    match weigh(heap, repo, bundle, Policy::Refuse) {
        Ok(Weighed::Merged(merged)) => merged.patches.len(),
        _ => 0,
    }
}

/// Whether a repository is split by the bundle into a patch and another, and would get one.
fn is_split_and_weighed(heap: Global, repo: &Repo<Global>) -> bool {
    match read_bundle(heap, MORE) {
        Ok(bundle) => counts(heap, repo, &bundle) == (1, 1) && appended(heap, repo, &bundle) == 1,
        Err(_) => false,
    }
}

#[test]
fn a_repository_is_split_and_a_bundle_weighed(rt: HostRuntime) {
    let repo = base_of(rt.alloc());
    assert!(rt;
        is_split_and_weighed(rt.alloc(), &repo),
        "a front, a rest and a new patch"
    );
}

/// A patch (d) that adds a directory.
const D: &[u8] = b"New patches:\n\n[d\np**d] adddir ./d\n\nContext:\n\n";

/// A patch (e) that adds another.
const E: &[u8] = b"New patches:\n\n[e\np**d] adddir ./e\n\nContext:\n\n";

/// Whether a bundle and the one of this text are taken in both orders.
fn take_with(heap: Global, first: &Bundle<Global>, text: &[u8]) -> bool {
    match read_bundle(heap, text) {
        Ok(second) => take_both(heap, &Repo::new(heap), first, &second),
        Err(_) => false,
    }
}

#[test]
fn bundles_are_taken_in_both_orders(rt: HostRuntime) {
    match read_bundle(rt.alloc(), D) {
        Ok(first) => assert!(rt; take_with(rt.alloc(), &first, E), "two that are apart"),
        Err(_) => assert!(rt; false, "a bundle"),
    }
}
