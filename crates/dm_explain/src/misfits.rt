//! What a new patch wants where it doesn't apply, and what stands there.
use crate::head::{Bytes, Head};
use crate::remedies::{write_anew, write_within};
use crate::shown::Shown;
use dm_prim::{Binary, Hunk, Prim, Replace};
use dm_repo::Misfit;
use dm_tokens::has_piece;
use dm_tree::{Entry, FileRef, Lines, TreeFault};
use std::alloc::Global;
use std::fmt::{self, Formatter, Write};

/// So many lines of a hunk are shown, and as many of a file.
const MOST_LINES: usize = 3;

/// Writes the first lines.
fn write_lines<W: Write>(f: &mut Formatter<W>, lines: &Lines<Global>) -> fmt::Result {
    for i in 0..lines.len().min(MOST_LINES) {
        writeln!(
            f,
            "  {}",
            Shown {
                text: lines.line(i)
            }
        )?;
    }
    Ok(())
}

/// Writes the lines of a file from a place on, at most so many; lines count from 0.
fn write_file<W: Write>(
    f: &mut Formatter<W>,
    file: FileRef<'_, Global>,
    from: usize,
    most: usize,
) -> fmt::Result {
    if file.count() <= from {
        return writeln!(f, "  nothing, since the file has {} lines", file.count());
    }
    let to = file.count().min(from.saturating_add(most));
    for i in from..to {
        writeln!(f, "  {}", Shown { text: file.line(i) })?;
    }
    Ok(())
}

/// Writes what a hunk wants to remove, and what stands there.
fn write_hunk<W: Write>(
    f: &mut Formatter<W>,
    hunk: &Hunk<Global>,
    misfit: &Misfit<Global>,
) -> fmt::Result {
    if hunk.old().is_empty() {
        return Ok(());
    }
    let Some(Entry::File(file)) = misfit.tree.entry(hunk.path()) else {
        return Ok(());
    };
    f.write_str("It wants there:\n")?;
    write_lines(f, hunk.old())?;
    f.write_str("There stands:\n")?;
    let from = hunk.line().saturating_sub(1) as usize;
    write_file(f, file, from, hunk.old().len().min(MOST_LINES))
}

/// Writes how many bytes a binary wants in its file, and how many stand there.
fn write_binary<W: Write>(
    f: &mut Formatter<W>,
    binary: &Binary<Global>,
    misfit: &Misfit<Global>,
) -> fmt::Result {
    let Some(Entry::File(file)) = misfit.tree.entry(binary.path()) else {
        return Ok(());
    };
    let wanted = Bytes::of(binary.old());
    let there = Bytes(file.bytes());
    writeln!(
        f,
        "It wants a file of {wanted} there. There stands another, of {there}."
    )
}

/// Writes the first line in which the new token of a replace stands already, where that is what the tree answers.
fn write_replace<W: Write>(
    f: &mut Formatter<W>,
    replace: &Replace<Global>,
    misfit: &Misfit<Global>,
) -> fmt::Result {
    if misfit.fault != TreeFault::TokenThere {
        return Ok(());
    }
    let Some(Entry::File(file)) = misfit.tree.entry(replace.path()) else {
        return Ok(());
    };
    let tokens = replace.tokens();
    let set = tokens.token_set();
    let mut lines = file.lines();
    let mut number = 1u64;
    while let Some(text) = lines.next() {
        if has_piece(&set, text, tokens.new_token()) {
            let line = Shown { text };
            return writeln!(f, "It stands in line {number}:\n  {line}");
        }
        number = number.saturating_add(1);
    }
    Ok(())
}

/// Writes what a primitive wants where it doesn't apply, and what stands there.
fn write_wanted<W: Write>(
    f: &mut Formatter<W>,
    prim: &Prim<Global>,
    misfit: &Misfit<Global>,
) -> fmt::Result {
    match prim {
        Prim::Hunk(hunk) => write_hunk(f, hunk, misfit),
        Prim::Binary(binary) => write_binary(f, binary, misfit),
        Prim::Replace(replace) => write_replace(f, replace, misfit),
        _ => Ok(()),
    }
}

/// Writes which primitive of a new patch doesn't apply, why, and what helps.
pub(crate) fn write_misfit<W: Write>(f: &mut Formatter<W>, misfit: &Misfit<Global>) -> fmt::Result {
    if let Some(prim) = misfit.patch.prims().get(misfit.prim) {
        writeln!(f, "at `{}`: {}.", Head { prim }, misfit.fault)?;
        write_wanted(f, prim, misfit)?;
    }
    match misfit.fault {
        TreeFault::TooDeep | TreeFault::TooLarge => write_within(f, misfit.fault),
        _ => write_anew(f),
    }
}
