//! The header of named fields: its bytes, what a turned byte of it is told as, and the files that get one.

use crate::asking::{fault_of, texts_in};
use crate::chains::{ABC, CLOSED, D, E, HEADER, OPEN, becomes, fault_in, file_of, takes_two};
use crate::lanes;
use dm_journal::{ChecksumField, Fault, Format, KindsField, unknown_field};
use std::alloc::Global;

pub const SIX: &[u8; 57] = b"dm journal fields\nkinds six\nchecksum lanes\nbase counted\n\n";

pub const ALL: &[u8; 57] = b"dm journal fields\nkinds all\nchecksum lanes\nbase counted\n\n";

pub const SIX_SHA256: &[u8; 58] =
    b"dm journal fields\nkinds six\nchecksum sha256\nbase counted\n\n";

pub const ALL_SHA256: &[u8; 58] =
    b"dm journal fields\nkinds all\nchecksum sha256\nbase counted\n\n";

#[test]
fn a_journal_of_sha256_has_these_bytes(rt: HostRuntime) {
    let alloc = rt.alloc();
    let six = file_of(alloc, &[SIX_SHA256, OPEN, ABC, OPEN, D, OPEN, E, CLOSED]);
    assert!(rt;
        takes_two(
            alloc,
            Format::Fields(KindsField::Six, ChecksumField::Sha256),
            &six,
        ),
        "a new journal takes two texts"
    );
    assert!(rt; texts_in(alloc, &six) == Some(3), "all are read");
    let all = file_of(alloc, &[ALL_SHA256, OPEN, ABC, OPEN, D, OPEN, E, CLOSED]);
    assert!(rt;
        takes_two(
            alloc,
            Format::Fields(KindsField::All, ChecksumField::Sha256),
            &all,
        ),
        "so does one of all kinds"
    );
    assert!(rt; texts_in(alloc, &all) == Some(3), "all of it are read");
}

#[test]
fn a_journal_that_is_replaced_has_fields(rt: HostRuntime) {
    let alloc = rt.alloc();
    let six = file_of(alloc, &[SIX, OPEN, lanes::ABC, CLOSED]);
    let second = file_of(alloc, &[HEADER, CLOSED]);
    assert!(rt; becomes(alloc, &second, &six), "one of version 2");
    assert!(rt; becomes(alloc, &six, &six), "one with fields");
    let old_six = file_of(alloc, &[SIX_SHA256, OPEN, ABC, CLOSED]);
    assert!(rt; becomes(alloc, &old_six, &six), "one with SHA-256");
    let all = file_of(alloc, &[ALL, OPEN, lanes::ABC, CLOSED]);
    assert!(rt; becomes(alloc, &all, &all), "one with fields and all kinds");
    let old_all = file_of(alloc, &[ALL_SHA256, OPEN, ABC, CLOSED]);
    assert!(rt;
        becomes(alloc, &old_all, &all),
        "one with SHA-256 and all kinds"
    );
}

/// Whether each bit of each byte of a header of fields that turns is told, and each byte that turns whole.
fn are_told<const N: usize>(alloc: Global, header: &[u8; N]) -> bool {
    let mut file = *header;
    for place in 0..N {
        let wanted = if place < 11 {
            Fault::NotAJournal
        } else {
            Fault::Unknown
        };
        for turned in [1, 2, 4, 8, 16, 32, 64, 128, 255] {
            file[place] = header[place] ^ turned;
            if fault_of(alloc, &file) != Some(wanted) {
                return false;
            }
        }
        file[place] = header[place];
    }
    true
}

#[test]
fn each_turned_byte_of_a_header_is_told(rt: HostRuntime) {
    assert!(rt; are_told(rt.alloc(), SIX), "with six kinds");
    assert!(rt; are_told(rt.alloc(), ALL), "with all kinds");
    assert!(rt;
        are_told(rt.alloc(), SIX_SHA256),
        "with six kinds and SHA-256"
    );
    assert!(rt;
        are_told(rt.alloc(), ALL_SHA256),
        "with all kinds and SHA-256"
    );
}

#[test]
fn a_header_that_is_cut_is_told(rt: HostRuntime) {
    let alloc = rt.alloc();
    assert!(rt;
        fault_of(alloc, &SIX[..56]) == Some(Fault::Unknown),
        "before the empty line"
    );
    assert!(rt; fault_of(alloc, SIX) == Some(Fault::Cut(4096)), "behind it");
    assert!(rt;
        fault_in(alloc, &[SIX]) == Some(Fault::Cut(4096)),
        "behind its unit"
    );
}

/// Whether a file with this header is of a version that isn't known.
fn is_unknown(alloc: Global, header: &[u8]) -> bool {
    fault_in(alloc, &[header, CLOSED]) == Some(Fault::Unknown)
}

#[test]
fn other_fields_are_told(rt: HostRuntime) {
    let alloc = rt.alloc();
    assert!(rt;
        is_unknown(
            alloc,
            b"dm journal fields\nkinds six\nchecksum sha512\nbase counted\n\n",
        ),
        "another value"
    );
    assert!(rt;
        is_unknown(
            alloc,
            b"dm journal fields\nkinds six\nchecksum sha256\nbase counted\nkinds six\n\n",
        ),
        "one more"
    );
    assert!(rt;
        is_unknown(alloc, b"dm journal fields\nkinds six\nchecksum sha256\n\n"),
        "one less"
    );
    assert!(rt;
        is_unknown(
            alloc,
            b"dm journal fields\nchecksum sha256\nkinds six\nbase counted\n\n",
        ),
        "another order"
    );
    assert!(rt; is_unknown(alloc, b"dm journal fields\n\n"), "none");
}

/// Whether the first field of a file that isn't known is this one.
fn names(file: &[u8], field: &[u8]) -> bool {
    unknown_field(file) == Some(field)
}

#[test]
fn the_first_unknown_field_is_named(rt: HostRuntime) {
    assert!(rt;
        names(
            b"dm journal fields\nkinds wide\nchecksum sha512\n\n",
            b"kinds wide",
        ),
        "another value"
    );
    assert!(rt;
        names(
            b"dm journal fields\nbase counted\nkinds all\nconflicts kept\n\n",
            b"conflicts kept",
        ),
        "another field"
    );
    assert!(rt;
        names(b"dm journal fields\nkinds six\r\n\r\n", b"kinds six\r"),
        "another end of the line"
    );
}

#[test]
fn no_field_is_named_where_none_is(rt: HostRuntime) {
    assert!(rt; unknown_field(SIX).is_none(), "all are known");
    assert!(rt; unknown_field(ALL_SHA256).is_none(), "so are all of these");
    assert!(rt;
        unknown_field(b"dm journal fields\nkinds six\n\nconflicts kept\n").is_none(),
        "it stands behind the empty line"
    );
    assert!(rt;
        unknown_field(b"dm journal fields\nkinds six\nconflicts kept").is_none(),
        "the file ends in it"
    );
    assert!(rt;
        unknown_field(b"dm journal 5\nconflicts kept\n").is_none(),
        "the header has a number"
    );
}
