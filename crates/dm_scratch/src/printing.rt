//! What is printed: the line of a verdict, and the lines of a tree.
ghost use Rattle.std.specs.Prelude.{◌≡◌, ◌++◌, OnOk};
ghost use Rattle.dm_scratch.specs.Printing.{entry_text, line_of, listing_text};
ghost use Rattle.dm_scratch.specs.Words.{verdict_text};

use crate::verdict::Verdict;
use dm_named::write_path;
use dm_tree::{Kind, Listed, Tree};
use std::alloc::{AllocError, Global};

/// The line of an entry.
fn push_entry(entry: &Listed<Global>, out: &mut Vec<u8>) -> Result<(), AllocError>
    ensures { OnOk result (out.new.items ≡ out.old.items ++ line_of (entry_text entry.now.path entry.now.kind)) }
{
    match entry.kind {
        Kind::Dir => {
            out.extend_from_slice(b"dir ")?;
            write_path(&entry.path, out)?;
            out.push(b'\n')?;
        }
        Kind::File(bytes) => {
            out.extend_from_slice(b"file ")?;
            write_path(&entry.path, out)?;
            let size = format!(in *out.allocator(); " {bytes}\n")?;
            out.extend_from_slice(size.as_bytes())?;
        }
    }
    Ok(())
}

/// The line of a verdict.
pub fn push_verdict(verdict: Verdict, out: &mut Vec<u8>) -> Result<(), AllocError>
    ensures { OnOk result (out.new.items ≡ out.old.items ++ line_of (verdict_text verdict)) }
{
    let line = format!(in *out.allocator(); "{verdict}\n")?;
    out.extend_from_slice(line.as_bytes())?;
    Ok(())
}

/// A line for each entry of the tree but its root.
pub fn push_listing(tree: &Tree<Global>, out: &mut Vec<u8>) -> Result<(), AllocError>
    ensures { OnOk result (out.new.items ≡ out.old.items ++ listing_text tree.now) }
{
    let entries = tree.listing(*out.allocator())?;
    for entry in &entries {
        push_entry(entry, out)?;
    }
    Ok(())
}
