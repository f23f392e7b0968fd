//! The second and the third format: their bytes, their chain, and what a closed latch hides.

use crate::asking::{fault_of, hidden_in, texts_in};
use crate::fields::{ALL, SIX};
use crate::lanes;
use dm_journal::{Fault, Format, Journal, Memory};
use std::alloc::Global;

pub const HEADER: &[u8] = b"dm journal 2\n";

const THIRD: &[u8] = b"dm journal 4\n";

pub const OPEN: &[u8] = &[255];

pub const CLOSED: &[u8] = &[0];

// The block of "abc", whose SHA-256 is that of the standard's example.
pub const ABC: &[u8] = &[
    0x03, 0x00, 0x00, 0x00, 0x00, 0x00, 0x00, 0x00, 0xba, 0x78, 0x16, 0xbf, 0x8f, 0x01, 0xcf, 0xea,
    0x41, 0x41, 0x40, 0xde, 0x5d, 0xae, 0x22, 0x23, 0xb0, 0x03, 0x61, 0xa3, 0x96, 0x17, 0x7a, 0x9c,
    0xb4, 0x10, 0xff, 0x61, 0xf2, 0x00, 0x15, 0xad, 0x61, 0x62, 0x63,
];

// The block of "d" behind it: its checksum is the SHA-256 of that one and of the text, by `sha256sum`.
pub const D: &[u8] = &[
    0x01, 0x00, 0x00, 0x00, 0x00, 0x00, 0x00, 0x00, 0x39, 0x23, 0x07, 0xe5, 0xdc, 0x6f, 0xe5, 0xe5,
    0xc9, 0x10, 0xde, 0x13, 0xab, 0x9e, 0x17, 0xa4, 0xf8, 0xac, 0x8c, 0x17, 0xc8, 0x4d, 0xc4, 0xe1,
    0x54, 0x78, 0x28, 0xa6, 0xe8, 0x16, 0x0a, 0x3f, 0x64,
];

// The block of "e" behind that.
pub const E: &[u8] = &[
    0x01, 0x00, 0x00, 0x00, 0x00, 0x00, 0x00, 0x00, 0x9f, 0xf2, 0xf2, 0x47, 0x2a, 0x8b, 0x4d, 0xf2,
    0xb3, 0x9d, 0x4a, 0x12, 0x90, 0xcc, 0x3e, 0x99, 0x18, 0x38, 0xf5, 0x9e, 0xb4, 0xdf, 0xe6, 0x9f,
    0x50, 0xcf, 0x94, 0xab, 0xd1, 0x2d, 0xe1, 0x95, 0x65,
];

/// Appends a part, and zeros up to a unit.
fn push_unit(bytes: &mut Vec<u8>, part: &[u8]) -> bool {
    if bytes.extend_from_slice(part).is_err() {
        return false;
    }
    for _ in part.len()..4096 {
        if bytes.push(0).is_err() {
            return false;
        }
    }
    true
}

/// A file of these parts, each in a unit of its own. Empty if memory ran out.
pub fn file_of(alloc: Global, parts: &[&[u8]]) -> Vec<u8> {
    let mut bytes = Vec::new(alloc);
    for part in parts {
        if !push_unit(&mut bytes, part) {
            return Vec::new(alloc);
        }
    }
    bytes
}

/// Whether a new journal of the text "abc" takes "d" and "e", and the file is then of these bytes.
pub fn takes_two(alloc: Global, format: Format, wanted: &[u8]) -> bool {
    let empty = Memory::new(alloc, Vec::new(alloc));
    let Ok(mut journal) = Journal::create(alloc, empty, format, &[b"abc"]) else {
        return false;
    };
    journal.append(alloc, b"d").is_ok()
        && journal.append(alloc, b"e").is_ok()
        && journal.device.bytes() == wanted
}

/// Whether a file that is replaced is of these bytes.
pub fn becomes(alloc: Global, old: &[u8], wanted: &[u8]) -> bool {
    let Ok(old) = old.to_vec(alloc) else {
        return false;
    };
    let Ok((mut journal, _texts)) = Journal::open(alloc, Memory::new(alloc, old)) else {
        return false;
    };
    journal.replace(alloc, &[b"abc"]).is_ok() && journal.device.bytes() == wanted
}

#[test]
fn a_second_journal_has_these_bytes(rt: HostRuntime) {
    let alloc = rt.alloc();
    let three = file_of(alloc, &[HEADER, OPEN, ABC, OPEN, D, OPEN, E, CLOSED]);
    assert!(rt;
        takes_two(alloc, Format::Second, &three),
        "a new journal takes two texts"
    );
    assert!(rt; texts_in(alloc, &three) == Some(3), "all are read");
    let one = file_of(alloc, &[SIX, OPEN, lanes::ABC, CLOSED]);
    assert!(rt;
        becomes(alloc, b"dm journal 1\n\0", &one),
        "a file of the first format is replaced by one with fields"
    );
}

#[test]
fn a_third_journal_has_these_bytes(rt: HostRuntime) {
    let alloc = rt.alloc();
    let three = file_of(alloc, &[THIRD, OPEN, ABC, OPEN, D, OPEN, E, CLOSED]);
    assert!(rt;
        takes_two(alloc, Format::Third, &three),
        "a new journal takes two texts"
    );
    assert!(rt; texts_in(alloc, &three) == Some(3), "all are read");
    let one = file_of(alloc, &[ALL, OPEN, lanes::ABC, CLOSED]);
    assert!(rt;
        becomes(alloc, &three, &one),
        "it is replaced by one with fields, and keeps the kinds"
    );
}

/// The fault of a file of these parts.
pub fn fault_in(alloc: Global, parts: &[&[u8]]) -> Option<Fault> {
    fault_of(alloc, &file_of(alloc, parts))
}

#[test]
fn blocks_are_chained(rt: HostRuntime) {
    let alloc = rt.alloc();
    assert!(rt;
        fault_in(alloc, &[HEADER, OPEN, ABC, OPEN, E, CLOSED]) == Some(Fault::Damaged(12288)),
        "one is left out in the middle"
    );
    assert!(rt;
        fault_in(alloc, &[HEADER, OPEN, D, OPEN, E, CLOSED]) == Some(Fault::Damaged(4096)),
        "the first is left out"
    );
    assert!(rt;
        fault_in(alloc, &[HEADER, OPEN, ABC, OPEN, E, OPEN, D, CLOSED])
            == Some(Fault::Damaged(12288)),
        "two have changed places"
    );
    assert!(rt;
        fault_in(alloc, &[HEADER, OPEN, ABC, OPEN, ABC, CLOSED]) == Some(Fault::Damaged(12288)),
        "one stands there twice"
    );
}

/// What a file of these parts hides.
fn hidden_by(alloc: Global, parts: &[&[u8]]) -> Option<usize> {
    hidden_in(alloc, &file_of(alloc, parts))
}

#[test]
fn a_latch_that_hides_blocks_is_told(rt: HostRuntime) {
    let alloc = rt.alloc();
    assert!(rt;
        hidden_by(alloc, &[HEADER, OPEN, ABC, CLOSED, D, OPEN, E, CLOSED]) == Some(12288),
        "two blocks stand behind a closed latch"
    );
    assert!(rt;
        hidden_by(alloc, &[HEADER, OPEN, ABC, CLOSED, D, CLOSED]).is_none(),
        "one stands there, as a crash leaves it"
    );
    assert!(rt;
        hidden_by(alloc, &[HEADER, OPEN, ABC, CLOSED, E, OPEN, D, CLOSED]).is_none(),
        "two stand there that don't follow on the texts"
    );
}

#[test]
fn other_headers_are_told(rt: HostRuntime) {
    let alloc = rt.alloc();
    assert!(rt;
        fault_in(alloc, &[b"dm journal 3\n", CLOSED]) == Some(Fault::Unknown),
        "a version that isn't known"
    );
    assert!(rt;
        fault_of(alloc, HEADER) == Some(Fault::Cut(4096)),
        "a file that is cut in the header's unit"
    );
    assert!(rt;
        fault_in(alloc, &[HEADER, OPEN, ABC]) == Some(Fault::Cut(12288)),
        "a file without its last latch"
    );
}
