//! What of a tree isn't written by default.
ghost use Rattle.std.specs.Prelude.{◌≡◌, map, IfOk, OnOk};
ghost use Rattle.dm_checkout.specs.Faults.{told};
ghost use Rattle.dm_checkout.specs.Repositories.{TellsMore, TellsWhy, refused};

use crate::fault::{Place, Refused, Why};
use crate::names::has_obeyed;
use crate::place::place_of;
use crate::repositories::Parts;
use dm_tree::{Listed, Path};
use std::alloc::{AllocError, Allocator, Global};

/// Why a path isn't written, if it isn't.
fn why_unsafe<A: Allocator>(
    alloc: Global,
    parts: &Parts,
    path: &Path<A>,
) -> Result<Option<Why>, AllocError>
    ensures { IfOk result (TellsWhy parts.now path.now) }
{
    if has_obeyed(alloc, path)? {
        return Ok(Some(Why::Obeyed));
    }
    if parts.is_head(alloc, path)? {
        return Ok(Some(Why::Repository));
    }
    Ok(None)
}

/// Adds a path, if it isn't written.
fn add_refused<A: Allocator>(
    alloc: Global,
    parts: &Parts,
    path: &Path<A>,
    list: &mut Vec<Refused>,
) -> Result<(), AllocError>
    ensures { OnOk result (TellsMore parts.now path.now (told list.old.items) (told list.new.items)) }
{
    match why_unsafe(alloc, parts, path)? {
        None => Ok(()),
        Some(why) => {
            let bytes = place_of(alloc, "", path)?;
            list.push(Refused {
                place: Place { bytes },
                why,
            })?;
            Ok(())
        }
    }
}

/// The paths that aren't written by default, each with why.
pub(crate) fn refused_of<A: Allocator>(
    alloc: Global,
    rows: &[Listed<A>],
) -> Result<Vec<Refused>, AllocError>
    ensures { IfOk result (λ list. told list.items ≡ refused (map (λ row. row.path) rows.now)) }
{
    let parts = Parts::of(alloc, rows)?;
    let mut list = Vec::new(alloc);
    for row in rows {
        add_refused(alloc, &parts, &row.path, &mut list)?;
    }
    Ok(list)
}
