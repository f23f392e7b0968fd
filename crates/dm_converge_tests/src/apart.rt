//! Mirrors that hold the same names and have different trees.

use crate::asking::end_apart;
use dm_scratch::Verdict;

/// A patch (a) that adds the directory `./d`.
const A: &[u8] = b"New patches:\n\n[a\np**d] adddir ./d\n\nContext:\n\n";

/// Another of that name, which adds `./e`.
const OTHER_A: &[u8] = b"New patches:\n\n[a\np**d] adddir ./e\n\nContext:\n\n";

#[test]
fn one_name_stands_for_two_patches(rt: HostRuntime) {
    let mut verdicts = [Verdict::NothingNew; 1];
    let mut others = [Verdict::NothingNew; 1];
    let are_apart = end_apart(rt.alloc(), &[A], &[OTHER_A], &mut verdicts, &mut others);
    assert!(rt; are_apart, "one has ./d, the other ./e");
}

/// A patch (m) that moves `./d` away and adds another one.
const M: &[u8] =
    b"New patches:\n\n[m\np**d] {\nmove ./d ./e\nadddir ./d\n}\n\nContext:\n\n[a\np**d] \n";

/// A patch (n) that adds a directory in `./d`, made where (a) was alone.
const N: &[u8] = b"New patches:\n\n[n\np**d] adddir ./d/x\n\nContext:\n\n[a\np**d] \n";

/// The same patch, made where (m) was too.
const OTHER_N: &[u8] =
    b"New patches:\n\n[n\np**d] adddir ./d/x\n\nContext:\n\n[a\np**d] \n[m\np**d] \n";

#[test]
fn one_patch_has_two_contexts(rt: HostRuntime) {
    let mut verdicts = [Verdict::NothingNew; 3];
    let mut others = [Verdict::NothingNew; 3];
    let are_apart = end_apart(
        rt.alloc(),
        &[A, M, N],
        &[A, M, OTHER_N],
        &mut verdicts,
        &mut others,
    );
    assert!(rt; are_apart, "one has ./e/x, the other ./d/x");
}
