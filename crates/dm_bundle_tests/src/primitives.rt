//! The table of commutation, row by row, and what no contract says: that `commute`, `commute_lists` and `apply_all` return an
//! answer where memory is ample, and what a commute takes of an arena.
use crate::asking::{do_commute, is_twice};
use crate::rows::{HUNKS, MOVE_THEN_WORK, MOVES, WORK_THEN_MOVE, WORKS};
use crate::wider::PAIRS;
use bumpalo::Bump;
use dm_named::{Kinds, Limits, Named, read_named, read_named_within, write_named};
use dm_prim::{Prim, apply_all, commute};
use dm_tree::Tree;
use std::alloc::{AllocError, Global};

/// Appends what the two primitives of a list commute to, if they do.
fn push_commuted(alloc: Global, prims: &mut Vec<Prim<Global>>) -> Result<(), AllocError> {
    let [p, q] = prims.as_slice() else {
        return Ok(());
    };
    if let Some((second, first)) = commute(alloc, p, q)? {
        prims.push(second)?;
        prims.push(first)?;
    }
    Ok(())
}

/// Puts what the first two primitives commute to in the place of the others.
fn commute_firsts(alloc: Global, row: &mut Named<Global>) -> Result<(), AllocError> {
    let mut prims = row.replace_prims(Vec::new(alloc));
    prims.truncate(2);
    push_commuted(alloc, &mut prims)?;
    let _ = row.replace_prims(prims);
    Ok(())
}

/// Writes the row, and then once more with what its first two primitives commute to.
fn write_both(alloc: Global, row: &mut Named<Global>, out: &mut Vec<u8>) -> Result<(), AllocError> {
    write_named(row, out)?;
    commute_firsts(alloc, row)?;
    write_named(row, out)
}

/// Whether the first two primitives of the row commute to the others.
fn is_as_told(alloc: Global, row: &str) -> bool {
    let limits = Limits::STANDARD.with_kinds(Kinds::All);
    let Ok((mut patch, _)) = read_named_within(alloc, row.as_bytes(), 0, limits) else {
        return false;
    };
    let mut out = Vec::new(alloc);
    write_both(alloc, &mut patch, &mut out).is_ok() && is_twice(&out)
}

/// The first row that is wrong, or nothing.
fn first_wrong(alloc: Global, rows: &str) -> &str {
    for row in rows.split("\n\n") {
        if !is_as_told(alloc, row) {
            return row;
        }
    }
    ""
}

#[test]
fn pairs_commute_by_the_table(rt: HostRuntime) {
    assert_eq!(rt; first_wrong(rt.alloc(), HUNKS), "");
    assert_eq!(rt; first_wrong(rt.alloc(), WORKS), "");
    assert_eq!(rt; first_wrong(rt.alloc(), WORK_THEN_MOVE), "");
    assert_eq!(rt; first_wrong(rt.alloc(), MOVE_THEN_WORK), "");
    assert_eq!(rt; first_wrong(rt.alloc(), MOVES), "");
    assert_eq!(rt; first_wrong(rt.alloc(), PAIRS), "");
}

/// Appends a primitive a thousand times.
fn push_thousand(prim: &[u8], out: &mut Vec<u8>) -> Result<(), AllocError> {
    for _ in 0..1000 {
        out.extend_from_slice(prim)?;
    }
    Ok(())
}

/// Whether the first thousand primitives of a patch pass all others, in this arena.
fn pass_in(arena: &Bump, text: &[u8]) -> bool {
    let Ok((patch, _)) = read_named(arena, text, 0) else {
        return false;
    };
    if patch.prims().len() != 2000 {
        return false;
    }
    let (xs, ys) = patch.prims().split_at(1000);
    do_commute(arena, xs, ys)
}

/// An arena gives nothing back: a million pairs must not take memory each.
#[test]
fn a_thousand_hunks_pass_a_thousand(rt: HostRuntime) -> Result<(), AllocError> {
    let mut text = Vec::from_slice(rt.alloc(), b"[p\np**d] ")?;
    push_thousand(b"hunk ./f 1\n+x\n", &mut text)?;
    push_thousand(b"hunk ./f 5000\n-x\n+y\n", &mut text)?;
    let arena = Bump::new(rt.alloc());
    assert!(rt; pass_in(&arena, &text), "they commute");
    assert!(rt; arena.allocated_bytes() < 64 * 1024 * 1024, "64 MB");
    Ok(())
}

/// Whether a list applies to an empty tree in the arena.
fn applies(arena: &Bump, prims: &[Prim<Global>]) -> bool {
    let mut tree = Tree::new(arena);
    apply_all(prims, &mut tree) == Ok(())
}

#[test]
fn a_list_applies(rt: HostRuntime) {
    let arena = Bump::new(rt.alloc());
    match read_named(rt.alloc(), b"[p\np**d] { adddir ./d addfile ./d/f }", 0) {
        Ok((patch, _)) => assert!(rt; applies(&arena, patch.prims()), "a file in a directory"),
        Err(_) => assert!(rt; false, "a patch"),
    }
}
