//! What no contract says: that `Info::new` and `write_info` return an answer where memory is ample, and that refused parts take
//! no memory.

use bumpalo::Bump;
use dm_info::{Info, InfoFault, read_info, write_info};
use std::alloc::Global;
use std::hash::{DefaultHasher, Hash, Hasher};

/// A patch info of parts.
fn of_parts(alloc: Global) -> Result<Info<Global>, InfoFault> {
    let log = [b"l1".as_slice(), b"".as_slice()];
    Info::new(alloc, b"x", b"p", b"d", &log)
}

fn hash_of(info: &Info<Global>) -> u64 {
    let mut hasher = DefaultHasher::new();
    info.hash(&mut hasher);
    hasher.finish()
}

/// Whether the text of these parts is read as what they make.
fn is_read(alloc: Global, made: &Info<Global>) -> bool {
    match read_info(alloc, b"[x\np**d\n l1\n \n]", 0) {
        Ok((read, _)) => made.same(&read) && *made == read && hash_of(made) == hash_of(&read),
        Err(_) => false,
    }
}

/// Whether the text of these parts is written behind what stands there.
fn is_written(alloc: Global, made: &Info<Global>) -> bool {
    match Vec::from_slice(alloc, b">") {
        Ok(mut out) => {
            write_info(made, &mut out).is_ok()
                && out.as_slice() == b">[x\np**d\n l1\n \n] ".as_slice()
        }
        Err(_) => false,
    }
}

#[test]
fn parts_make_what_is_read_and_written(rt: HostRuntime) {
    match of_parts(rt.alloc()) {
        Ok(made) => {
            assert!(rt; is_read(rt.alloc(), &made), "read");
            assert!(rt; is_written(rt.alloc(), &made), "written");
        }
        Err(_) => assert!(rt; false, "a patch info"),
    }
}

/// Why there is no patch info of these parts.
fn fault_of(arena: &Bump, name: &str, author: &str, date: &str, line: &str) -> Option<InfoFault> {
    let log = [b"l".as_slice(), line.as_bytes()];
    Info::new(
        arena,
        name.as_bytes(),
        author.as_bytes(),
        date.as_bytes(),
        &log,
    )
    .err()
}

#[test]
fn refused_parts_take_no_memory(rt: HostRuntime) {
    let arena = Bump::new(rt.alloc());
    let name = fault_of(&arena, "x\n", "p", "d", "l");
    assert!(rt; name == Some(InfoFault::BadName), "a newline in the name");
    let author = fault_of(&arena, "x", "a*b", "d", "l");
    assert!(rt;
        author == Some(InfoFault::BadAuthor),
        "a star in the author"
    );
    let date = fault_of(&arena, "x", "p", "x]", "l");
    assert!(rt; date == Some(InfoFault::BadDate), "a bracket in the date");
    let log = fault_of(&arena, "x", "p", "d", "\n");
    assert!(rt; log == Some(InfoFault::BadLog), "a newline in the log");
    assert!(rt; arena.allocated_bytes() == 0, "nothing was taken");
    let none = fault_of(&arena, "x", "p", "d", "l");
    assert!(rt; none.is_none(), "valid parts");
    assert!(rt; arena.allocated_bytes() > 0, "these take memory");
}
