//! The log of a repository, or of a bundle.
ghost use Rattle.std.specs.Prelude.{◌≡◌, ◌++◌, ◌<◌, ◌≤◌, length, IfOk, OnOk};
ghost use Rattle.dm_bundle.specs.Patches.{infos_of};
ghost use Rattle.dm_log.specs.Entries.{log_text};
ghost use Rattle.dm_log.specs.Choices.{count_of, entries_text, long_entry, long_shown, place_of, place_shown};

use crate::entry::push_entry;
use crate::options::LogOptions;
use crate::patches::Patches;
use crate::verbose::push_details;
use dm_named::Named;
use dm_repo::Repo;
use std::alloc::{AllocError, Allocator};

/// How many entries are shown.
pub fn count_of(last: Option<usize>, all: usize) -> usize
    ensures value { result ≡ count_of last all }
    ensures few { result ≤ all }
{
    match last {
        None => all,
        Some(most) => most.min(all),
    }
}

/// Where the entry that is shown at a place stands among all.
pub fn place_of(reverse: bool, all: usize, count: usize, k: usize) -> usize
    requires within { k < count }
    requires few { count ≤ all }
    ensures value { result ≡ place_of reverse all count k }
    ensures within { result < all }
{
    if reverse {
        all - 1 - k
    } else {
        all - count + k
    }
}

/// Appends the line of a place, if that is asked for.
fn push_place<B: Allocator + Copy>(
    options: LogOptions,
    place: usize,
    out: &mut Vec<u8, B>,
) -> Result<(), AllocError>
    ensures { OnOk result (out.new.items ≡ out.old.items ++ place_shown options.places place) }
{
    if !options.places {
        return Ok(());
    }
    let line = format!(in *out.allocator(); "#{place}\n")?;
    out.extend_from_slice(line.as_bytes())?;
    Ok(())
}

/// Appends all that a patch does, if that is asked for.
fn push_long<A: Allocator, B: Allocator + Copy>(
    options: LogOptions,
    patch: &Named<A>,
    out: &mut Vec<u8, B>,
) -> Result<(), AllocError>
    ensures { OnOk result (out.new.items ≡ out.old.items ++ long_shown options.verbose patch.now) }
{
    if !options.verbose {
        return Ok(());
    }
    out.push(b'\n')?;
    push_details(patch, out)
}

/// Appends the entry of the patch at a place, with what is asked for.
fn push_long_entry<A: Allocator, B: Allocator + Copy>(
    options: LogOptions,
    place: usize,
    patch: &Named<A>,
    out: &mut Vec<u8, B>,
) -> Result<(), AllocError>
    ensures { OnOk result (out.new.items ≡ out.old.items ++ long_entry options (place, patch.now)) }
{
    push_place(options, place, out)?;
    push_entry(patch.info(), out)?;
    push_long(options, patch, out)?;
    Ok(())
}

/// The entries that are chosen, with an empty line between each two; no text where there is none.
pub fn write_entries<B: Allocator + Copy, P: Patches>(
    alloc: B,
    patches: &P,
    options: LogOptions,
) -> Result<Vec<u8, B>, AllocError>
    ensures { IfOk result (λ text. text.items ≡ entries_text options (P.patches patches.now)) }
{
    let all = patches.count();
    let count = count_of(options.last, all);
    let mut text = Vec::new(alloc);
    for k in 0..count {
        if k > 0 {
            text.push(b'\n')?;
        }
        let i = place_of(options.reverse, all, count, k);
        push_long_entry(options, i + 1, patches.at(i), &mut text)?;
    }
    Ok(text)
}

/// The entries of a repository's patches, oldest first, with an empty line between each two; no text where there is no patch.
pub fn write_log<A: Allocator, B: Allocator + Copy>(
    alloc: B,
    repo: &Repo<A>,
) -> Result<Vec<u8, B>, AllocError>
    ensures { IfOk result (λ text. text.items ≡ log_text (infos_of repo.now.patches)) }
{
    let all = LogOptions {
        last: None,
        reverse: false,
        verbose: false,
        places: false,
    };
    write_entries(alloc, repo, all)
}
