//! A store in memory, and one that is opened again.

use crate::asking::{bad_entry_in, patches_in};
use crate::repositories::first_patch;
use dm_journal::{Format, Journal, Memory};
use dm_named::Kinds;
use dm_repo::{Policy, Repo};
use dm_scratch::Verdict;
use dm_store::Store;
use std::alloc::Global;

/// A patch (a) that adds a file, and a patch (m) that adds a line.
const TWO: &[u8] =
    b"New patches:\n\n[a\np**d] addfile ./f\n[m\np**d] hunk ./f 1\n+x\n\nContext:\n\n";

/// A patch (n) that adds the same file.
const CONFLICT: &[u8] =
    b"New patches:\n\n[n\np**d] {\naddfile ./f\nadddir ./d\n}\n[o\np**d] adddir ./o\n\nContext:\n\n";

/// A patch (q) that adds a line behind that of (m).
const NEXT: &[u8] =
    b"New patches:\n\n[q\np**d] hunk ./f 2\n+y\n\nContext:\n\n[m\np**d]\n[a\np**d]\n";

/// A patch (b) that adds a file and gives it two bytes.
const BINARY: &[u8] =
    b"New patches:\n\n[b\np**d] {\naddfile ./b\nbinary ./b\noldhex\n*\nnewhex\n*00ff\n}\n\nContext:\n\n";

/// Whether a new store takes two patches once, skips one of two others, and has three when it is opened again.
fn lasts(alloc: Global) -> bool {
    let file = Memory::new(alloc, Vec::new(alloc));
    let Ok(mut store) = Store::create(alloc, file, Repo::new(alloc), 0, Kinds::Six) else {
        return false;
    };
    let Ok(Verdict::Taken(2)) = store.take(alloc, TWO, Policy::Refuse) else {
        return false;
    };
    let Ok(Verdict::NothingNew) = store.take(alloc, TWO, Policy::Refuse) else {
        return false;
    };
    let Ok(Verdict::TakenSome(1, 1)) = store.take(alloc, CONFLICT, Policy::Skip) else {
        return false;
    };
    let device = store.into_device();
    patches_in(alloc, device.bytes()) == Some(3)
}

#[test]
fn a_store_is_opened_again(rt: HostRuntime) {
    assert!(rt; lasts(rt.alloc()), "three patches of two texts");
}

/// Whether a store of two texts has the same patches when it is opened again after a checkpoint, and takes another text then.
fn lasts_in_one_entry(alloc: Global) -> bool {
    let file = Memory::new(alloc, Vec::new(alloc));
    let Ok(mut store) = Store::create(alloc, file, Repo::new(alloc), 0, Kinds::Six) else {
        return false;
    };
    let Ok(false) = store.checkpoint(alloc) else {
        return false;
    };
    let Ok(Verdict::Taken(2)) = store.take(alloc, TWO, Policy::Refuse) else {
        return false;
    };
    let Ok(Verdict::TakenSome(1, 1)) = store.take(alloc, CONFLICT, Policy::Skip) else {
        return false;
    };
    let Ok(true) = store.checkpoint(alloc) else {
        return false;
    };
    let Ok(mut opened) = Store::open(alloc, store.into_device()) else {
        return false;
    };
    if opened.repo().len() != 3 {
        return false;
    }
    let Ok(Verdict::Taken(1)) = opened.take(alloc, NEXT, Policy::Refuse) else {
        return false;
    };
    true
}

#[test]
fn a_checkpoint_is_opened_again(rt: HostRuntime) {
    assert!(rt;
        lasts_in_one_entry(rt.alloc()),
        "three patches in one entry, and a fourth after it"
    );
}

/// Whether a store of two patches is replaced by the first alone, takes the second again, and is replaced by no patch.
fn is_replaced(alloc: Global) -> bool {
    let file = Memory::new(alloc, Vec::new(alloc));
    let Ok(mut store) = Store::create(alloc, file, Repo::new(alloc), 0, Kinds::Six) else {
        return false;
    };
    let Ok(Verdict::Taken(2)) = store.take(alloc, TWO, Policy::Refuse) else {
        return false;
    };
    let Some(first) = first_patch(alloc) else {
        return false;
    };
    let Ok(true) = store.replace(alloc, first) else {
        return false;
    };
    let Ok(mut opened) = Store::open(alloc, store.into_device()) else {
        return false;
    };
    let Ok(Verdict::Taken(1)) = opened.take(alloc, TWO, Policy::Refuse) else {
        return false;
    };
    let Ok(true) = opened.replace(alloc, Repo::new(alloc)) else {
        return false;
    };
    let device = opened.into_device();
    patches_in(alloc, device.bytes()) == Some(0)
}

#[test]
fn a_store_is_replaced(rt: HostRuntime) {
    assert!(rt; is_replaced(rt.alloc()), "one patch, two patches, none");
}

/// Whether a new store for these kinds takes a patch with a binary, has it in one entry when it is opened again, and reads all
/// kinds then.
fn keeps_a_binary(alloc: Global, kinds: Kinds) -> bool {
    let file = Memory::new(alloc, Vec::new(alloc));
    let Ok(mut store) = Store::create(alloc, file, Repo::new(alloc), 0, kinds) else {
        return false;
    };
    let Ok(Verdict::Taken(1)) = store.take(alloc, BINARY, Policy::Refuse) else {
        return false;
    };
    let Ok(true) = store.checkpoint(alloc) else {
        return false;
    };
    let Ok(opened) = Store::open(alloc, store.into_device()) else {
        return false;
    };
    opened.kinds() == Kinds::All && opened.repo().len() == 1
}

#[test]
fn a_store_keeps_its_kinds(rt: HostRuntime) {
    assert!(rt; keeps_a_binary(rt.alloc(), Kinds::All), "all kinds");
    assert!(rt; !keeps_a_binary(rt.alloc(), Kinds::Six), "six kinds");
}

/// Whether a journal of this text isn't opened, for its entry.
fn is_bad(alloc: Global, text: &[u8]) -> bool {
    let file = Memory::new(alloc, Vec::new(alloc));
    let Ok(journal) = Journal::create(alloc, file, Format::Second, &[text]) else {
        return false;
    };
    bad_entry_in(alloc, journal.device.bytes()) == Some(0)
}

#[test]
fn another_journal_is_not_opened(rt: HostRuntime) {
    assert!(rt; is_bad(rt.alloc(), b""), "no policy");
    assert!(rt; is_bad(rt.alloc(), b"\x04"), "a policy that isn't one");
    assert!(rt; is_bad(rt.alloc(), b"\x00"), "no bundle");
    assert!(rt;
        is_bad(rt.alloc(), b"\x02"),
        "no bundle of a whole repository"
    );
    assert!(rt;
        is_bad(rt.alloc(), b"\x03\x00\x00\x00"),
        "a base whose number is cut"
    );
}
