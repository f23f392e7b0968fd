//! Whether two primitives make one change.
use dm_prim::{Binary, Hunk, Preference, Prim, Replace};
use dm_tree::Lines;
use std::alloc::Global;

/// Whether two lists of lines are one.
fn same_lines(lines: &Lines<Global>, others: &Lines<Global>) -> bool {
    if lines.len() != others.len() {
        return false;
    }
    for i in 0..lines.len().min(others.len()) {
        if lines.line(i) != others.line(i) {
            return false;
        }
    }
    true
}

/// Whether two hunks are one.
fn same_hunk(hunk: &Hunk<Global>, other: &Hunk<Global>) -> bool {
    hunk.path().same(other.path())
        && hunk.line() == other.line()
        && same_lines(hunk.old(), other.old())
        && same_lines(hunk.new_lines(), other.new_lines())
}

/// Whether two binaries are one.
fn same_binary(binary: &Binary<Global>, other: &Binary<Global>) -> bool {
    binary.path().same(other.path())
        && same_lines(binary.old(), other.old())
        && same_lines(binary.new_lines(), other.new_lines())
}

/// Whether two replaces are one.
fn same_replace(replace: &Replace<Global>, other: &Replace<Global>) -> bool {
    let tokens = replace.tokens();
    let others = other.tokens();
    replace.path().same(other.path())
        && tokens.set_text() == others.set_text()
        && tokens.old() == others.old()
        && tokens.new_token() == others.new_token()
}

/// Whether two changes of preferences are one.
fn same_preference(preference: &Preference<Global>, other: &Preference<Global>) -> bool {
    preference.name() == other.name()
        && preference.old() == other.old()
        && preference.new_value() == other.new_value()
}

/// Whether two primitives are one.
pub(crate) fn same_prim(prim: &Prim<Global>, other: &Prim<Global>) -> bool {
    match (prim, other) {
        (Prim::AddFile(path), Prim::AddFile(other)) => path.same(other),
        (Prim::RmFile(path), Prim::RmFile(other)) => path.same(other),
        (Prim::AddDir(path), Prim::AddDir(other)) => path.same(other),
        (Prim::RmDir(path), Prim::RmDir(other)) => path.same(other),
        (Prim::Move(from, to), Prim::Move(other, there)) => from.same(other) && to.same(there),
        (Prim::Hunk(hunk), Prim::Hunk(other)) => same_hunk(hunk, other),
        (Prim::Binary(binary), Prim::Binary(other)) => same_binary(binary, other),
        (Prim::Replace(replace), Prim::Replace(other)) => same_replace(replace, other),
        (Prim::ChangePref(preference), Prim::ChangePref(other)) => {
            same_preference(preference, other)
        }
        _ => false,
    }
}
