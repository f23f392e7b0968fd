//! A session that is cut short at each of its steps.
ghost use Rattle.dm_store.specs.Keeping.{IsStored};

use crate::asking::keeps_either;
use crate::repositories::first_patch;
use crate::tearing::{Tear, Tearing};
use dm_journal::{Device, Memory};
use dm_repo::Policy;
use dm_store::Store;
use std::alloc::Global;

/// The file of a store without patches, in the first format. A checkpoint makes one of the second.
const EMPTY: &[u8] = b"dm journal 1\n\0";

/// A patch (a) that adds a file, and a patch (m) that adds a line.
const TWO: &[u8] =
    b"New patches:\n\n[a\np**d] addfile ./f\n[m\np**d] hunk ./f 1\n+x\n\nContext:\n\n";

/// A patch (n) that adds the same file, and a patch (o) that adds a directory.
const CONFLICT: &[u8] =
    b"New patches:\n\n[n\np**d] addfile ./f\n[o\np**d] adddir ./o\n\nContext:\n\n";

/// Two patches (q) and (r) that add lines behind that of (m).
const NEXT: &[u8] =
    b"New patches:\n\n[q\np**d] hunk ./f 2\n+y\n[r\np**d] hunk ./f 3\n+z\n\nContext:\n\n[m\np**d]\n[a\np**d]\n";

/// A patch (s) that adds a line before that of (m).
const LAST: &[u8] =
    b"New patches:\n\n[s\np**d] hunk ./f 1\n+w\n\nContext:\n\n[m\np**d]\n[a\np**d]\n";

/// Takes five texts, makes a checkpoint, takes one text more, and is replaced by the first patch alone. How many patches there
/// were when the last of these was answered, and how many there are with the next.
fn session<D: Device>(alloc: Global, store: &mut Store<D>) -> (usize, usize)
    requires { IsStored D.seen D.may_leave D.file_may_leave store.old }
{
    if store.take(alloc, TWO, Policy::Refuse).is_err() {
        return (0, 2);
    }
    if store.take(alloc, TWO, Policy::Refuse).is_err() {
        return (2, 2);
    }
    if store.take(alloc, CONFLICT, Policy::Refuse).is_err() {
        return (2, 2);
    }
    if store.take(alloc, CONFLICT, Policy::Skip).is_err() {
        return (2, 3);
    }
    if store.take(alloc, NEXT, Policy::Refuse).is_err() {
        return (3, 5);
    }
    if store.checkpoint(alloc).is_err() {
        return (5, 5);
    }
    if store.take(alloc, LAST, Policy::Refuse).is_err() {
        return (5, 6);
    }
    if !is_replaced(alloc, store) {
        return (6, 1);
    }
    (1, 1)
}

/// Whether the store is replaced by the first patch alone.
fn is_replaced<D: Device>(alloc: Global, store: &mut Store<D>) -> bool
    requires { IsStored D.seen D.may_leave D.file_may_leave store.old }
{
    match first_patch(alloc) {
        Some(first) => store.replace(alloc, first).is_ok(),
        None => false,
    }
}

/// Whether the same session over a file of these bytes is answered whole, and leaves one patch.
fn goes_on(alloc: Global, bytes: &[u8]) -> bool {
    let Ok(bytes) = bytes.to_vec(alloc) else {
        return false;
    };
    let Ok(mut store) = Store::open(alloc, Memory::new(alloc, bytes)) else {
        return false;
    };
    session(alloc, &mut store) == (1, 1) && store.repo().len() == 1
}

/// How many patches a session had that is cut short after so many steps, when it was answered last. `None` if the file keeps
/// neither these nor those with the call in flight, or if the session can't be had again over it.
fn cut_short(alloc: Global, steps: usize, tear: Tear) -> Option<usize> {
    let Ok(bytes) = EMPTY.to_vec(alloc) else {
        return None;
    };
    let device = Tearing {
        device: Memory::new(alloc, bytes),
        alloc,
        steps,
        tear,
    };
    let Ok(mut store) = Store::open(alloc, device) else {
        return None;
    };
    let (answered, with_next) = session(alloc, &mut store);
    let left = store.into_device();
    if !keeps_either(alloc, left.device.bytes(), answered, with_next) {
        return None;
    }
    if !goes_on(alloc, left.device.bytes()) {
        return None;
    }
    Some(answered)
}

/// Whether all is well after each number of steps up to 400, in which the file has the first format, and after each 509th
/// from there on, up to one at which the session is answered whole.
fn lasts(alloc: Global, tear: Tear) -> bool {
    for count in 0..10_000 {
        let steps = if count < 400 {
            count
        } else {
            400 + (count - 400) * 509
        };
        match cut_short(alloc, steps, tear) {
            None => return false,
            Some(1) => return true,
            Some(_) => {}
        }
    }
    false
}

/// How many steps the session takes. `None` if memory ran out.
fn steps_in_all(alloc: Global) -> Option<usize> {
    let Ok(bytes) = EMPTY.to_vec(alloc) else {
        return None;
    };
    let device = Tearing {
        device: Memory::new(alloc, bytes),
        alloc,
        steps: usize::MAX,
        tear: Tear::First,
    };
    let Ok(mut store) = Store::open(alloc, device) else {
        return None;
    };
    if session(alloc, &mut store) != (1, 1) {
        return None;
    }
    Some(usize::MAX - store.into_device().steps)
}

/// Whether all is well before each of the last eight steps, of which three are calls: the new file is synced, takes the name, and
/// the folder is synced.
fn lasts_at_the_end(alloc: Global) -> bool {
    let Some(steps) = steps_in_all(alloc) else {
        return false;
    };
    for back in 1..9 {
        if cut_short(alloc, steps.saturating_sub(back), Tear::First) != Some(6) {
            return false;
        }
    }
    true
}

#[test]
fn a_crash_leaves_all_of_a_text_or_none(rt: HostRuntime) {
    assert!(rt;
        lasts(rt.alloc(), Tear::First),
        "the first bytes of a write"
    );
}

#[test]
fn so_does_one_that_leaves_other_bytes(rt: HostRuntime) {
    assert!(rt;
        lasts(rt.alloc(), Tear::Last(7)),
        "the last bytes of a write, and others before them"
    );
}

#[test]
fn a_crash_leaves_the_old_repository_or_the_new_one(rt: HostRuntime) {
    assert!(rt; lasts_at_the_end(rt.alloc()), "six patches or one");
}
