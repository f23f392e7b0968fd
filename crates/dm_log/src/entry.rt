//! The entries of a log.
ghost use Rattle.std.specs.Prelude.{◌≡◌, ◌++◌, codes, OnOk};
ghost use Rattle.std.specs.List.{flat_map};
ghost use Rattle.dm_log.specs.Shown.{digits, shown};
ghost use Rattle.dm_log.specs.Dates.{date_text};
ghost use Rattle.dm_log.specs.Entries.{entry_text, labelled, line_text, patch_hash, title};

use crate::date::push_date;
use crate::shown::{push_digits, push_shown};
use dm_info::Info;
use sha1::Sha1;
use std::alloc::{AllocError, Allocator};

/// The SHA-1 by which Darcs names a patch.
pub fn hash_of<A: Allocator>(info: &Info<A>) -> [u8; 20]
    ensures { result ≡ patch_hash info.now }
{
    let mut hasher = Sha1::new();
    hasher.update(info.name());
    hasher.update(info.author());
    hasher.update(info.date());
    for i in 0..info.log_len() {
        hasher.update(info.log_line(i));
    }
    hasher.update(b"f");
    hasher.finalize()
}

pub(crate) fn push_hex<A: Allocator>(bytes: &[u8], out: &mut Vec<u8, A>) -> Result<(), AllocError>
    ensures { OnOk result (out.new.items ≡ out.old.items ++ flat_map digits bytes.now) }
{
    for byte in bytes {
        push_digits(*byte, out)?;
    }
    Ok(())
}

fn push_hash_line<A: Allocator, B: Allocator>(
    info: &Info<A>,
    out: &mut Vec<u8, B>,
) -> Result<(), AllocError>
    ensures { OnOk result (out.new.items ≡ out.old.items ++ labelled (codes "patch ") (flat_map digits (patch_hash info.now))) }
{
    out.extend_from_slice(b"patch ")?;
    push_hex(&hash_of(info), out)?;
    out.push(b'\n')?;
    Ok(())
}

/// Appends a line of a label and a text as it is shown.
pub(crate) fn push_labelled<A: Allocator>(
    label: &[u8],
    text: &[u8],
    out: &mut Vec<u8, A>,
) -> Result<(), AllocError>
    ensures { OnOk result (out.new.items ≡ out.old.items ++ labelled label.now (shown text.now)) }
{
    out.extend_from_slice(label)?;
    push_shown(text, out)?;
    out.push(b'\n')?;
    Ok(())
}

fn push_date_line<A: Allocator>(date: &[u8], out: &mut Vec<u8, A>) -> Result<(), AllocError>
    ensures { OnOk result (out.new.items ≡ out.old.items ++ labelled (codes "Date:   ") (date_text date.now)) }
{
    out.extend_from_slice(b"Date:   ")?;
    push_date(date, out)?;
    out.push(b'\n')?;
    Ok(())
}

fn push_title<A: Allocator>(name: &[u8], out: &mut Vec<u8, A>) -> Result<(), AllocError>
    ensures { OnOk result (out.new.items ≡ out.old.items ++ title name.now) }
{
    if name.starts_with(b"TAG ") {
        return push_labelled(b"  tagged ", &name[4..], out);
    }
    push_labelled(b"  * ", name, out)
}

fn push_line<A: Allocator>(line: &[u8], out: &mut Vec<u8, A>) -> Result<(), AllocError>
    ensures { OnOk result (out.new.items ≡ out.old.items ++ line_text line.now) }
{
    if line.starts_with(b"Ignore-this: ") {
        return Ok(());
    }
    push_labelled(b"  ", line, out)
}

fn push_lines<A: Allocator, B: Allocator>(
    info: &Info<A>,
    out: &mut Vec<u8, B>,
) -> Result<(), AllocError>
    ensures { OnOk result (out.new.items ≡ out.old.items ++ flat_map line_text info.now.log) }
{
    for i in 0..info.log_len() {
        push_line(info.log_line(i), out)?;
    }
    Ok(())
}

/// Appends the entry of a patch. If an allocation fails, a part of it may stand there.
pub fn push_entry<A: Allocator, B: Allocator>(
    info: &Info<A>,
    out: &mut Vec<u8, B>,
) -> Result<(), AllocError>
    ensures { OnOk result (out.new.items ≡ out.old.items ++ entry_text info.now) }
{
    push_hash_line(info, out)?;
    push_labelled(b"Author: ", info.author(), out)?;
    push_date_line(info.date(), out)?;
    push_title(info.name(), out)?;
    push_lines(info, out)?;
    Ok(())
}
