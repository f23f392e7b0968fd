//! The repository that the tests put in the place of others.

use dm_named::Limits;
use dm_repo::{Policy, Repo};
use dm_scratch::{Verdict, take_within};
use std::alloc::Global;

/// A patch (a) that adds a file.
const FIRST: &[u8] = b"New patches:\n\n[a\np**d] addfile ./f\n\nContext:\n\n";

/// The repository of the patch (a) alone. `None` if memory ran out.
pub fn first_patch(alloc: Global) -> Option<Repo<Global>> {
    let mut repo = Repo::new(alloc);
    match take_within(&mut repo, alloc, FIRST, Limits::OWN, Policy::Refuse) {
        Verdict::Taken(_) => Some(repo),
        _ => None,
    }
}
