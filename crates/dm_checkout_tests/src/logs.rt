//! Logs of patches that the real darcs recorded: the hashes are those that `darcs log` prints.
use crate::asking::is_entry;
use dm_info::Info;
use std::alloc::Global;

/// Whether the entry of a patch of these parts is this text.
fn is_shown(
    alloc: Global,
    name: &[u8],
    author: &[u8],
    date: &[u8],
    log: &[&[u8]],
    text: &str,
) -> bool {
    match Info::new(alloc, name, author, date, log) {
        Ok(info) => is_entry(alloc, &info, text.as_bytes()),
        Err(_) => false,
    }
}

#[test]
fn a_name_and_an_author_in_utf8(rt: HostRuntime) {
    let salt =
        b"Ignore-this: aa1bb9ef39824f0c1121bc25e1fe6283320678c054cfd9516b80176020b28c255e3216b62edfdb6d";
    let text =
        "patch d3c0b9f9fcbf89dd04b0d24244594e87e641b05d\nAuthor: Zo\u{e9} <z@e.fr>\nDate:   2026-11-26 14:27:47 UTC\n  * premi\u{e8}re\n";
    assert!(rt;
        is_shown(
            rt.alloc(),
            "premi\u{e8}re".as_bytes(),
            "Zo\u{e9} <z@e.fr>".as_bytes(),
            b"20261126142747",
            &[salt],
            text
        )
    );
}

#[test]
fn a_tag(rt: HostRuntime) {
    let salt =
        b"Ignore-this: 85acaa6b63161f845c81859bb0eb01f7c430183185475f2d9ca8a355a80bd16b51db0c44d67db728";
    let text =
        "patch 4ed90dd8ba03ac8a5071eff40ac6f98ba04e674f\nAuthor: me\nDate:   2026-11-26 14:28:55 UTC\n  tagged v1.0\n";
    assert!(rt;
        is_shown(
            rt.alloc(),
            b"TAG v1.0",
            b"me",
            b"20261126142855",
            &[salt],
            text
        )
    );
}

#[test]
fn control_characters_and_a_long_log(rt: HostRuntime) {
    let salt =
        b"Ignore-this: f89232b7208abe036f8ed9f5bc7bd45b4cdc9e1956d4ca9d4861023266941ea0d5da940c9cf3bc24";
    let text =
        "patch f38f97a1432d4a44a4470b775a8bfbcb8017aba9\nAuthor: A\\x01uth <a@b>\nDate:   2026-11-26 14:27:47 UTC\n  * name with \\x1b esc\n  line one\n  longer \u{2603}\n  \n    indented\n  ctrl \\x01\\x1b[31m red\ttab\n  bad??bytes\n  nbsp\u{a0}x zw\\xe2\\x80\\x8by bidi\\xe2\\x80\\xaez c1\\xc2\\x9b\n";
    let log: [&[u8]; 8] = [
        salt,
        b"line one",
        b"longer \xe2\x98\x83",
        b"",
        b"  indented",
        b"ctrl \x01\x1b[31m red\ttab",
        b"bad??bytes",
        b"nbsp\xc2\xa0x zw\xe2\x80\x8by bidi\xe2\x80\xaez c1\xc2\x9b",
    ];
    assert!(rt;
        is_shown(
            rt.alloc(),
            b"name with \x1b esc",
            b"A\x01uth <a@b>",
            b"20261126142747",
            &log,
            text
        )
    );
}

#[test]
fn what_is_no_date_and_no_utf8(rt: HostRuntime) {
    let text =
        "patch 903fea087830620e2f481402f09179b994d17e3e\nAuthor: \\xff\nDate:   20250229000000\n  * a\n";
    assert!(rt; is_shown(rt.alloc(), b"a", b"\xff", b"20250229000000", &[], text));
}
