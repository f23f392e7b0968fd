//! Contexts, and the entries that are chosen of a bundle.
use dm_bundle::read_bundle;
use dm_log::{LogOptions, write_context, write_entries};
use std::alloc::Global;

/// Two patches.
const BUNDLE: &[u8] =
    b"New patches:\n\n[one\nme**20260101000000] addfile ./a\n[two\nme**20260102000000] hunk ./a 1\n+x\n\nContext:\n\n";

/// Whether the context of the bundle's patches is this text.
fn is_context(alloc: Global, text: &[u8]) -> bool {
    let Ok(bundle) = read_bundle(alloc, BUNDLE) else {
        return false;
    };
    match write_context(alloc, &bundle) {
        Ok(context) => context.as_slice() == text,
        Err(_) => false,
    }
}

/// Whether the chosen entries of the bundle are this text.
fn are_entries(alloc: Global, options: LogOptions, text: &[u8]) -> bool {
    let Ok(bundle) = read_bundle(alloc, BUNDLE) else {
        return false;
    };
    match write_entries(alloc, &bundle, options) {
        Ok(entries) => entries.as_slice() == text,
        Err(_) => false,
    }
}

#[test]
fn a_context_has_the_newest_first(rt: HostRuntime) {
    let text = b"\nContext:\n\n\n[two\nme**20260102000000] \n\n[one\nme**20260101000000] \n";
    assert!(rt; is_context(rt.alloc(), text));
}

#[test]
fn the_newest_alone_with_its_text(rt: HostRuntime) {
    let options = LogOptions {
        last: Some(1),
        reverse: false,
        verbose: true,
        places: true,
    };
    let text =
        b"#2\npatch d59f1607c8ac904edde04acb51bf120f61eef0a2\nAuthor: me\nDate:   2026-01-02 00:00:00 UTC\n  * two\n\n    [two\n    me**20260102000000] hunk ./a 1\n    +x\n";
    assert!(rt; are_entries(rt.alloc(), options, text));
}

#[test]
fn the_newest_first(rt: HostRuntime) {
    let options = LogOptions {
        last: None,
        reverse: true,
        verbose: false,
        places: false,
    };
    let text =
        b"patch d59f1607c8ac904edde04acb51bf120f61eef0a2\nAuthor: me\nDate:   2026-01-02 00:00:00 UTC\n  * two\n\npatch 5f726ac687553e51175886368ee84968be7dd5dd\nAuthor: me\nDate:   2026-01-01 00:00:00 UTC\n  * one\n";
    assert!(rt; are_entries(rt.alloc(), options, text));
}
