//! The bytes of journals of the first format, and what is told of other files.

use crate::asking::fault_of;
use dm_journal::{Fault, Journal, Memory};
use std::alloc::Global;

// The header and a closed latch.
const EMPTY: [u8; 14] = *b"dm journal 1\n\0";

// A journal of the text "abc", whose SHA-256 is that of the standard's example.
const ABC: [u8; 58] = [
    b'd', b'm', b' ', b'j', b'o', b'u', b'r', b'n', b'a', b'l', b' ', b'1', b'\n', 255, 3, 0, 0, 0,
    0, 0, 0, 0, 0xba, 0x78, 0x16, 0xbf, 0x8f, 0x01, 0xcf, 0xea, 0x41, 0x41, 0x40, 0xde, 0x5d, 0xae,
    0x22, 0x23, 0xb0, 0x03, 0x61, 0xa3, 0x96, 0x17, 0x7a, 0x9c, 0xb4, 0x10, 0xff, 0x61, 0xf2, 0x00,
    0x15, 0xad, b'a', b'b', b'c', 0,
];

/// Whether an empty journal takes the text "abc", and the file is then as above.
fn takes_abc(alloc: Global) -> bool {
    let Ok(bytes) = EMPTY.to_vec(alloc) else {
        return false;
    };
    let Ok((mut journal, texts)) = Journal::open(alloc, Memory::new(alloc, bytes)) else {
        return false;
    };
    texts.is_empty()
        && journal.append(alloc, b"abc").is_ok()
        && journal.device.bytes() == ABC.as_slice()
}

/// Whether the text comes back.
fn is_read(alloc: Global) -> bool {
    let Ok(bytes) = ABC.to_vec(alloc) else {
        return false;
    };
    let Ok((_journal, texts)) = Journal::open(alloc, Memory::new(alloc, bytes)) else {
        return false;
    };
    texts.len() == 1 && texts.text(0) == b"abc".as_slice()
}

#[test]
fn a_first_journal_has_these_bytes(rt: HostRuntime) {
    assert!(rt; takes_abc(rt.alloc()), "an empty journal takes a text");
    assert!(rt; is_read(rt.alloc()), "the text is read");
}

/// The fault of a journal of "abc" in which a byte is another.
fn fault_at(alloc: Global, place: usize) -> Option<Fault> {
    let mut bytes = ABC;
    if place < 58 {
        bytes[place] ^= 1;
    }
    fault_of(alloc, &bytes)
}

#[test]
fn a_turned_bit_is_found(rt: HostRuntime) {
    assert!(rt;
        fault_at(rt.alloc(), 0) == Some(Fault::NotAJournal),
        "in front of the version"
    );
    assert!(rt;
        fault_at(rt.alloc(), 11) == Some(Fault::Unknown),
        "in the version"
    );
    assert!(rt;
        fault_at(rt.alloc(), 14) == Some(Fault::Damaged(13)),
        "in the length, which is then one less"
    );
    assert!(rt;
        fault_at(rt.alloc(), 21) == Some(Fault::Cut(13)),
        "in the length, which is then past the end"
    );
    assert!(rt;
        fault_at(rt.alloc(), 22) == Some(Fault::Damaged(13)),
        "in the checksum"
    );
    assert!(rt;
        fault_at(rt.alloc(), 56) == Some(Fault::Damaged(13)),
        "in the text"
    );
}

#[test]
fn a_missing_byte_is_found(rt: HostRuntime) {
    assert!(rt;
        fault_of(rt.alloc(), &ABC[..10]) == Some(Fault::NotAJournal),
        "in front of the version"
    );
    assert!(rt;
        fault_of(rt.alloc(), &ABC[..12]) == Some(Fault::Unknown),
        "in the version"
    );
    assert!(rt;
        fault_of(rt.alloc(), &ABC[..13]) == Some(Fault::Cut(13)),
        "behind the header"
    );
    assert!(rt;
        fault_of(rt.alloc(), &ABC[..56]) == Some(Fault::Cut(13)),
        "in the text"
    );
    assert!(rt;
        fault_of(rt.alloc(), &ABC[..57]) == Some(Fault::Cut(57)),
        "behind the text"
    );
}
