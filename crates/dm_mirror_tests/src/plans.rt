//! Plans that can't be, each for another reason.

use dm_mail::MOST_BUNDLES;
use dm_mirror::{Plan, PlanFault};
use dm_named::{FaultKind, ReadFault};
use dm_repo::Policy;
use dm_scratch::Verdict;
use std::alloc::Global;

/// Why there is no plan of two posters that send nothing, for these bases.
fn fault_of(
    alloc: Global,
    bases: &[&[u8]],
    policies: &[Policy],
    bound: usize,
) -> Option<PlanFault> {
    Plan::build(alloc, &[&[], &[]], bases, policies, bound).err()
}

#[test]
fn plans_that_cannot_be(rt: HostRuntime) {
    let alloc = rt.alloc();
    let both: [&[u8]; 2] = [b"", b""];
    let bad: [&[u8]; 2] = [b"", b"x"];
    let policies = [Policy::Refuse; 2];
    let malformed = Verdict::Malformed(ReadFault {
        kind: FaultKind::NoNewPatches,
        at: 1,
    });
    assert!(rt;
        fault_of(alloc, &[], &[], 1) == Some(PlanFault::Mirrors),
        "no base"
    );
    assert!(rt;
        fault_of(alloc, &both, &policies[..1], 1) == Some(PlanFault::Mirrors),
        "two bases and one policy"
    );
    assert!(rt;
        fault_of(alloc, &both, &policies, 65) == Some(PlanFault::Bound),
        "a bound of 65"
    );
    assert!(rt;
        fault_of(alloc, &bad, &policies, 1) == Some(PlanFault::BadBase(1, malformed)),
        "the second base"
    );
    assert!(rt; fault_of(alloc, &both, &policies, 64).is_none(), "a plan");
}

#[test]
fn a_thousand_and_one_bundles_of_a_poster(rt: HostRuntime) {
    let texts: [&[u8]; MOST_BUNDLES + 1] = [b""; MOST_BUNDLES + 1];
    let posters: [&[&[u8]]; 2] = [&[], &texts];
    let answer = Plan::build(rt.alloc(), &posters, &[b""], &[Policy::Refuse], 1);
    assert!(rt;
        answer.err() == Some(PlanFault::TooManyBundles),
        "one too many"
    );
}
