//! The checksum by lanes: the bytes of its blocks, their chain, and a bit of each byte of a block that turns. The expected values are from a
//! program of a dozen lines over docs/FORMAT.md.

use crate::asking::{fault_of, texts_in};
use crate::chains;
use crate::chains::{CLOSED, OPEN, fault_in, file_of, takes_two};
use crate::fields::{ALL, ALL_SHA256, SIX, SIX_SHA256};
use dm_journal::{ChecksumField, Fault, Format, KindsField};
use std::alloc::Global;

// The block of "abc".
pub const ABC: &[u8] = &[
    0x03, 0x00, 0x00, 0x00, 0x00, 0x00, 0x00, 0x00, 0xf0, 0x1b, 0x12, 0x84, 0x53, 0xb3, 0x63, 0x32,
    0xd9, 0x2f, 0x19, 0x50, 0x11, 0x61, 0x7a, 0xf7, 0xc0, 0x2c, 0x2d, 0x9a, 0x27, 0xff, 0xc9, 0xa8,
    0x2e, 0xf4, 0x2c, 0x6a, 0xef, 0x16, 0x51, 0xf8, 0x61, 0x62, 0x63,
];

// The block of "d" behind it.
const D: &[u8] = &[
    0x01, 0x00, 0x00, 0x00, 0x00, 0x00, 0x00, 0x00, 0x7d, 0x54, 0x2e, 0x45, 0x1d, 0x66, 0x8f, 0xef,
    0xa7, 0x80, 0x47, 0x5b, 0x76, 0x2a, 0x5f, 0x39, 0x27, 0xa6, 0x55, 0x28, 0x6a, 0x3f, 0x5e, 0xe5,
    0x63, 0x27, 0x8c, 0xa0, 0xf4, 0xac, 0x83, 0x2f, 0x64,
];

// The block of "e" behind that.
const E: &[u8] = &[
    0x01, 0x00, 0x00, 0x00, 0x00, 0x00, 0x00, 0x00, 0x85, 0x27, 0xe7, 0x13, 0x61, 0x2e, 0x6c, 0x54,
    0x1d, 0x5c, 0x61, 0x2c, 0x21, 0x10, 0xc0, 0x70, 0x30, 0x27, 0x9f, 0x7e, 0xe6, 0xe0, 0x8c, 0xd1,
    0xbb, 0xac, 0xe2, 0x65, 0x26, 0x62, 0xae, 0x94, 0x65,
];

// The block of the bytes from 0 to 99: three stripes, and a fourth that is filled up.
const HUNDRED: &[u8] = &[
    0x64, 0x00, 0x00, 0x00, 0x00, 0x00, 0x00, 0x00, 0x80, 0xe9, 0xbb, 0xf7, 0x2e, 0x6c, 0xcd, 0xc7,
    0xa9, 0xd3, 0xa2, 0x1d, 0x00, 0xc9, 0x78, 0x0f, 0x09, 0xac, 0x3e, 0x98, 0x18, 0x00, 0x40, 0x72,
    0xe1, 0x8f, 0xe7, 0x15, 0x60, 0x48, 0x81, 0x21, 0x00, 0x01, 0x02, 0x03, 0x04, 0x05, 0x06, 0x07,
    0x08, 0x09, 0x0a, 0x0b, 0x0c, 0x0d, 0x0e, 0x0f, 0x10, 0x11, 0x12, 0x13, 0x14, 0x15, 0x16, 0x17,
    0x18, 0x19, 0x1a, 0x1b, 0x1c, 0x1d, 0x1e, 0x1f, 0x20, 0x21, 0x22, 0x23, 0x24, 0x25, 0x26, 0x27,
    0x28, 0x29, 0x2a, 0x2b, 0x2c, 0x2d, 0x2e, 0x2f, 0x30, 0x31, 0x32, 0x33, 0x34, 0x35, 0x36, 0x37,
    0x38, 0x39, 0x3a, 0x3b, 0x3c, 0x3d, 0x3e, 0x3f, 0x40, 0x41, 0x42, 0x43, 0x44, 0x45, 0x46, 0x47,
    0x48, 0x49, 0x4a, 0x4b, 0x4c, 0x4d, 0x4e, 0x4f, 0x50, 0x51, 0x52, 0x53, 0x54, 0x55, 0x56, 0x57,
    0x58, 0x59, 0x5a, 0x5b, 0x5c, 0x5d, 0x5e, 0x5f, 0x60, 0x61, 0x62, 0x63,
];

#[test]
fn a_new_journal_has_these_bytes(rt: HostRuntime) {
    let alloc = rt.alloc();
    let six = file_of(alloc, &[SIX, OPEN, ABC, OPEN, D, OPEN, E, CLOSED]);
    assert!(rt;
        takes_two(
            alloc,
            Format::Fields(KindsField::Six, ChecksumField::Lanes),
            &six,
        ),
        "a new journal takes two texts"
    );
    assert!(rt; texts_in(alloc, &six) == Some(3), "all are read");
    let all = file_of(alloc, &[ALL, OPEN, ABC, OPEN, D, OPEN, E, CLOSED]);
    assert!(rt;
        takes_two(
            alloc,
            Format::Fields(KindsField::All, ChecksumField::Lanes),
            &all,
        ),
        "so does one of all kinds"
    );
    assert!(rt; texts_in(alloc, &all) == Some(3), "all of it are read");
}

#[test]
fn blocks_are_chained(rt: HostRuntime) {
    let alloc = rt.alloc();
    assert!(rt;
        fault_in(alloc, &[SIX, OPEN, ABC, OPEN, E, CLOSED]) == Some(Fault::Damaged(12288)),
        "one is left out in the middle"
    );
    assert!(rt;
        fault_in(alloc, &[SIX, OPEN, D, OPEN, E, CLOSED]) == Some(Fault::Damaged(4096)),
        "the first is left out"
    );
    assert!(rt;
        fault_in(alloc, &[SIX, OPEN, ABC, OPEN, E, OPEN, D, CLOSED]) == Some(Fault::Damaged(12288)),
        "two have changed places"
    );
    assert!(rt;
        fault_in(alloc, &[SIX, OPEN, ABC, OPEN, ABC, CLOSED]) == Some(Fault::Damaged(12288)),
        "one stands there twice"
    );
}

#[test]
fn each_header_has_its_checksum(rt: HostRuntime) {
    let alloc = rt.alloc();
    assert!(rt;
        fault_in(alloc, &[SIX, OPEN, chains::ABC, CLOSED]) == Some(Fault::Damaged(4096)),
        "a SHA-256 where lanes are due"
    );
    assert!(rt;
        fault_in(alloc, &[ALL, OPEN, chains::ABC, CLOSED]) == Some(Fault::Damaged(4096)),
        "the same with all kinds"
    );
    assert!(rt;
        fault_in(alloc, &[SIX_SHA256, OPEN, ABC, CLOSED]) == Some(Fault::Damaged(4096)),
        "lanes where a SHA-256 is due"
    );
    assert!(rt;
        fault_in(alloc, &[ALL_SHA256, OPEN, ABC, CLOSED]) == Some(Fault::Damaged(4096)),
        "the same with all kinds"
    );
}

/// Whether a file in which a bit of a byte of the first block is turned is told.
fn is_told(alloc: Global, file: &[u8], place: usize) -> bool {
    let Ok(mut bytes) = file.to_vec(alloc) else {
        return false;
    };
    if place < bytes.len() {
        bytes[place] ^= 1 << (place % 8);
    }
    matches!(
        fault_of(alloc, &bytes),
        Some(Fault::Damaged(4096) | Fault::Cut(4096))
    )
}

/// Whether it is told for each byte of the block.
fn are_told(alloc: Global, file: &[u8]) -> bool {
    for place in 8192..8332 {
        if !is_told(alloc, file, place) {
            return false;
        }
    }
    true
}

#[test]
fn a_turned_bit_of_each_byte_of_a_block_is_told(rt: HostRuntime) {
    let alloc = rt.alloc();
    let file = file_of(alloc, &[SIX, OPEN, HUNDRED, CLOSED]);
    assert!(rt; texts_in(alloc, &file) == Some(1), "it is read");
    assert!(rt; are_told(alloc, &file), "in its length, checksum and text");
}
