//! A bundle on the heap, and its text in an arena.

use bumpalo::Bump;
use dm_bundle::{Bundle, read_bundle, read_bundle_within, write_bundle};
use dm_named::{FaultKind, Kinds, Limits, ReadFault};
use std::alloc::{AllocError, Global};

/// The canonical text of a bundle of two new patches and a context.
const TEXT: &str =
    "New patches:\n\n[a\np**d] adddir ./d\n[t\np**d] <\n[a\np**d] \n> {\n}\n\nContext:\n\n[b\np**d] \n";

/// Limits that the text just meets.
const MET: Limits = Limits {
    bytes: 82,
    patches: 2,
    prims: 1,
    replaces: 0,
    kinds: Kinds::Six,
};

/// Whether its text is written in the arena.
fn is_written(arena: &Bump, bundle: &Bundle<Global>) -> bool {
    match write_bundle(arena, bundle) {
        Ok(text) => text.as_slice() == TEXT.as_bytes(),
        Err(_) => false,
    }
}

#[test]
fn is_read_on_the_heap_and_written_in_an_arena(rt: HostRuntime) {
    let arena = Bump::new(rt.alloc());
    match read_bundle(rt.alloc(), TEXT.as_bytes()) {
        Ok(bundle) => assert!(rt; is_written(&arena, &bundle), "the same text"),
        Err(_) => assert!(rt; false, "a bundle"),
    }
}

#[test]
fn is_read_within_limits_that_it_just_meets(rt: HostRuntime) {
    match read_bundle_within(rt.alloc(), TEXT.as_bytes(), MET) {
        Ok(_) => {}
        Err(_) => assert!(rt; false, "a bundle"),
    }
    let one = Limits { patches: 1, ..MET };
    match read_bundle_within(rt.alloc(), TEXT.as_bytes(), one) {
        Ok(_) => assert!(rt; false, "one patch too many"),
        Err(e) => assert!(rt;
            e == ReadFault {
                kind: FaultKind::TooMany,
                at: 34
            },
            "at the second patch"
        ),
    }
}

/// Appends a patch of so many replaces, after this much of it.
fn push_patch(text: &mut Vec<u8, Global>, front: &[u8], count: usize) -> Result<(), AllocError> {
    text.extend_from_slice(front)?;
    for _ in 0..count {
        text.extend_from_slice(b"replace ./f [a-z] a b\n")?;
    }
    text.extend_from_slice(b"}\n")
}

/// The text of a bundle of 250 replaces in a patch and so many in a second one.
fn replaces(alloc: Global, second: usize) -> Result<Vec<u8, Global>, AllocError> {
    let mut text = Vec::new(alloc);
    push_patch(&mut text, b"New patches:\n\n[a\np**d] {\n", 250)?;
    push_patch(&mut text, b"[t\np**d] {\n", second)?;
    text.extend_from_slice(b"\nContext:\n")?;
    Ok(text)
}

/// Why a text of all kinds isn't read within the standard limits.
fn fault(alloc: Global, text: &[u8]) -> Option<ReadFault> {
    let limits = Limits::STANDARD.with_kinds(Kinds::All);
    match read_bundle_within(alloc, text, limits) {
        Ok(_) => None,
        Err(e) => Some(e),
    }
}

#[test]
fn has_five_hundred_replaces_at_most(rt: HostRuntime) {
    match replaces(rt.alloc(), 250) {
        Ok(text) => assert!(rt; fault(rt.alloc(), &text).is_none(), "as many as are read"),
        Err(_) => assert!(rt; false, "memory"),
    }
    match replaces(rt.alloc(), 251) {
        Ok(text) => assert!(rt;
            fault(rt.alloc(), &text)
                == Some(ReadFault {
                    kind: FaultKind::TooMany,
                    at: 11061
                }),
            "where the second patch ends"
        ),
        Err(_) => assert!(rt; false, "memory"),
    }
}
