//! The lines that an account prints.
use crate::account::{Account, Clashing};
use crate::depth::{Depth, write_depth};
use crate::fates::Fates;
use crate::head::Head;
use crate::misfits::write_misfit;
use crate::passing::write_passing;
use crate::remedies::{
    write_against, write_against_any, write_anew, write_new_repository, write_settling,
    write_whole_context,
};
use crate::shown::{Held, Who};
use crate::skips::{NamedSkip, Reason, Skips};
use dm_info::Info;
use dm_named::Limits;
use std::alloc::Global;
use std::fmt::{self, Display, Formatter, Write};

/// A line for each of these patches, after a line that says what they are; nothing where there is none.
fn write_list<W: Write>(f: &mut Formatter<W>, what: &str, names: &[&Info<Global>]) -> fmt::Result {
    if names.is_empty() {
        return Ok(());
    }
    writeln!(f, "{what}:")?;
    for info in names {
        writeln!(f, "  {}", Who { info })?;
    }
    Ok(())
}

/// A line for each of two patches.
fn write_pair<W: Write, A: Display, B: Display>(
    f: &mut Formatter<W>,
    what: &str,
    first: &A,
    by: &str,
    second: &B,
) -> fmt::Result {
    writeln!(f, "{what}:\n  {first}\n{by}:\n  {second}")
}

/// Which patches of the context aren't held.
fn write_missing<W: Write>(f: &mut Formatter<W>, missing: &[&Info<Global>]) -> fmt::Result {
    match missing.len() {
        1 => f.write_str("A patch that the bundle builds on isn't held:\n")?,
        count => writeln!(f, "{count} patches that the bundle builds on aren't held:")?,
    }
    for info in missing {
        writeln!(f, "  {}", Who { info })?;
    }
    Ok(())
}

/// A new patch, what it names, and whether that is held.
fn write_lacking<W: Write>(
    f: &mut Formatter<W>,
    patch: &Info<Global>,
    dependency: &Info<Global>,
    held: bool,
) -> fmt::Result {
    let patch = Who { info: patch };
    if held {
        write_pair(
            f,
            "The new patch",
            &patch,
            "depends on",
            &Held { info: dependency },
        )?;
        f.write_str(
            "which is held, but neither in the bundle nor in what its context stands for.\n",
        )?;
        return write_whole_context(f);
    }
    write_pair(
        f,
        "The new patch",
        &patch,
        "depends on",
        &Who { info: dependency },
    )?;
    f.write_str("which is neither held nor in the bundle.\n")?;
    write_against_any(f)
}

/// Which limit a repository of so many patches would pass with so many more: that of a path or a file, and where, or else the patches.
fn write_full<W: Write>(
    f: &mut Formatter<W>,
    held: usize,
    more: usize,
    depth: &Option<Depth<'_>>,
) -> fmt::Result {
    if let Some(depth) = depth {
        return write_depth(f, depth);
    }
    writeln!(
        f,
        "The repository has {held} patches, and the bundle {more} more; {} can be held.",
        Limits::OWN.patches
    )?;
    write_new_repository(f)
}

/// What became of each new patch.
fn write_fates<W: Write>(f: &mut Formatter<W>, fates: &Fates<'_>) -> fmt::Result {
    write_list(f, "Taken", &fates.taken)?;
    write_list(
        f,
        "Skipped, since they conflict, or can't do without one that does",
        &fates.skipped,
    )?;
    write_list(f, "Held before", &fates.held)
}

/// Which primitives of two patches can't pass each other.
fn write_clashing<W: Write>(f: &mut Formatter<W>, pair: &Clashing<'_>) -> fmt::Result {
    let new = Head { prim: pair.new };
    let held = Head { prim: pair.held };
    writeln!(f, "by `{new}` of the first and `{held}` of the second.")
}

impl Display for Account<'_> {
    fn fmt<W: Write>(&self, f: &mut Formatter<W>) -> fmt::Result {
        match self {
            Account::Nobody => Ok(()),
            Account::Full(held, more, depth) => write_full(f, *held, *more, depth),
            Account::MissingContext(missing) => {
                write_missing(f, missing)?;
                write_against_any(f)
            }
            Account::MissingDependency(patch, dependency, held) => {
                write_lacking(f, patch, dependency, *held)
            }
            Account::ContextDepends(patch, needed) => {
                write_pair(
                    f,
                    "The context has",
                    &Held { info: patch },
                    "but not what that builds on",
                    &Held { info: needed },
                )?;
                write_whole_context(f)
            }
            Account::HeldDepends(patch, needed) => {
                write_pair(
                    f,
                    "Held already is the new patch",
                    &Held { info: patch },
                    "but not what it builds on in the bundle",
                    &Who { info: needed },
                )?;
                write_against(f)
            }
            Account::DoesNotFit(patch, misfit) => {
                let patch = Who { info: patch };
                writeln!(
                    f,
                    "This new patch doesn't apply to what the bundle was made from:\n  {patch}"
                )?;
                match misfit {
                    Some(misfit) => write_misfit(f, misfit),
                    None => write_anew(f),
                }
            }
            Account::Conflicts(new, held, clashing) => {
                write_pair(
                    f,
                    "The new patch",
                    &Who { info: new },
                    "conflicts with the held patch",
                    &Held { info: held },
                )?;
                if let Some(pair) = clashing {
                    write_clashing(f, pair)?;
                    write_passing(f, pair)?;
                }
                write_settling(f, clashing)
            }
            Account::Sorted(fates) => write_fates(f, fates),
        }
    }
}

/// Writes a skipped patch, and why it is skipped.
fn write_skip<W: Write>(f: &mut Formatter<W>, skip: &NamedSkip<'_>) -> fmt::Result {
    writeln!(f, "  {}", Who { info: skip.patch })?;
    match skip.by {
        Reason::Conflicts(info) => {
            writeln!(f, "    conflicts with the held patch {}", Held { info })
        }
        Reason::Needs(info) => {
            writeln!(f, "    can't do without the skipped patch {}", Who { info })
        }
    }
}

impl Display for Skips<'_> {
    fn fmt<W: Write>(&self, f: &mut Formatter<W>) -> fmt::Result {
        if self.list.is_empty() {
            return Ok(());
        }
        f.write_str("Skipped:\n")?;
        for skip in &self.list {
            write_skip(f, skip)?;
        }
        Ok(())
    }
}

/// An account of a bundle of which patches were skipped, with why they were. It prints itself in lines for people.
#[derive(Clone, Copy)]
pub struct AccountWithSkips<'a> {
    /// The account.
    pub account: &'a Account<'a>,
    /// Why patches were skipped.
    pub skips: &'a Skips<'a>,
}

impl Display for AccountWithSkips<'_> {
    fn fmt<W: Write>(&self, f: &mut Formatter<W>) -> fmt::Result {
        match self.account {
            Account::Sorted(fates) => {
                write_list(f, "Taken", &fates.taken)?;
                write!(f, "{}", self.skips)?;
                write_list(f, "Held before", &fates.held)
            }
            account => write!(f, "{account}"),
        }
    }
}
