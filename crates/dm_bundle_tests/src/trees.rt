//! What no contract says: that an answer comes where memory is ample, and what takes no memory.

use bumpalo::Bump;
use dm_tree::{LineFault, Lines, Path, PathFault, Tree};
use std::alloc::Global;

/// What an arena has taken, and what is left of the block that it is filling: equal where nothing was allocated.
fn use_of(arena: &Bump) -> (usize, usize) {
    (arena.allocated_bytes(), arena.chunk_capacity())
}

/// Whether a directory is added.
fn adds_dir(heap: Global, tree: &mut Tree<&Bump>, names: &[&[u8]]) -> bool {
    match Path::from_parts(heap, names) {
        Ok(path) => tree.add_dir(&path).is_ok(),
        Err(_) => false,
    }
}

/// Whether a file with one line gets its line.
fn fills(heap: Global, tree: &mut Tree<&Bump>, path: &Path<Global>) -> bool {
    let mut line = Lines::new(heap);
    let none = Lines::new(heap);
    line.push(b"x").is_ok() && tree.edit(path, 1, &none, &line).is_ok()
}

/// Whether a file is added, and has a line.
fn adds_file(heap: Global, tree: &mut Tree<&Bump>, names: &[&[u8]]) -> bool {
    match Path::from_parts(heap, names) {
        Ok(path) => tree.add_file(&path).is_ok() && fills(heap, tree, &path),
        Err(_) => false,
    }
}

/// Whether each change at this path is refused.
fn is_refused(tree: &mut Tree<&Bump>, path: &Path<Global>, none: &Lines<Global>) -> bool {
    tree.add_file(path).is_err()
        && tree.add_dir(path).is_err()
        && tree.remove_file(path).is_err()
        && tree.remove_dir(path).is_err()
        && tree.rename(path, path).is_err()
        && tree.edit(path, 9, none, none).is_err()
}

/// Whether the path isn't moved to that of these names.
fn is_unmoved(heap: Global, tree: &mut Tree<&Bump>, path: &Path<Global>, to: &[&[u8]]) -> bool {
    match Path::from_parts(heap, to) {
        Ok(to) => tree.rename(path, &to).is_err(),
        Err(_) => false,
    }
}

/// Whether each change at the path of these names is refused, and its move to that of others.
fn refuses(heap: Global, tree: &mut Tree<&Bump>, names: &[&[u8]], to: &[&[u8]]) -> bool {
    match Path::from_parts(heap, names) {
        Ok(path) => {
            is_refused(tree, &path, &Lines::new(heap)) && is_unmoved(heap, tree, &path, to)
        }
        Err(_) => false,
    }
}

#[test]
fn a_refused_change_takes_no_memory(rt: HostRuntime) {
    let arena = Bump::new(rt.alloc());
    let mut tree = Tree::new(&arena);
    assert!(rt; adds_dir(rt.alloc(), &mut tree, &[b"d"]), "a directory");
    assert!(rt; adds_file(rt.alloc(), &mut tree, &[b"d", b"f"]), "a file");
    let before = use_of(&arena);
    assert!(rt;
        refuses(rt.alloc(), &mut tree, &[b"d"], &[b"z", b"q"]),
        "a directory that is full"
    );
    assert!(rt;
        refuses(rt.alloc(), &mut tree, &[b"d", b"f"], &[b"d"]),
        "a file that is full"
    );
    assert!(rt;
        refuses(rt.alloc(), &mut tree, &[b"z", b"q"], &[b"z"]),
        "a parent that is missing"
    );
    assert!(rt;
        refuses(rt.alloc(), &mut tree, &[b"d", b"f", b"q"], &[b"d", b"f"]),
        "a parent that is a file"
    );
    assert!(rt; use_of(&arena) == before, "nothing was taken");
}

#[test]
fn refused_names_take_no_memory(rt: HostRuntime) {
    let arena = Bump::new(rt.alloc());
    let names = [b"a".as_slice(), b"..".as_slice()];
    let refused = Path::from_parts(&arena, &names).err();
    assert!(rt; refused == Some(PathFault::BadName), "the parent");
    assert!(rt; use_of(&arena) == (0, 0), "nothing was taken");
}

/// Whether three lines of five bytes are taken, and one with a newline is refused, without any memory.
fn take_no_more(arena: &Bump, lines: &mut Lines<&Bump>) -> bool {
    let before = use_of(arena);
    lines.push(b"abc").is_ok()
        && lines.push_plain(b"").is_ok()
        && lines.push(b"de").is_ok()
        && lines.push(b"x\ny") == Err(LineFault::Newline)
        && use_of(arena) == before
}

#[test]
fn lines_take_the_room_that_was_made(rt: HostRuntime) {
    let arena = Bump::new(rt.alloc());
    match Lines::with_room(&arena, 3, 5) {
        Ok(mut lines) => assert!(rt; take_no_more(&arena, &mut lines), "three lines"),
        Err(_) => assert!(rt; false, "room for three lines"),
    }
}
