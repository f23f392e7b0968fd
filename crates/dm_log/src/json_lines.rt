//! A log for programs: a line of JSON for each patch.
ghost use Rattle.std.specs.Prelude.{◌≡◌, ◌++◌, IfOk, OnOk};
ghost use Rattle.dm_log.specs.Json.{LinesReadBack, ReadsBack, json_line, json_text};

mod change;
mod object;
mod patch;

pub use crate::json_lines::object::Object;
use crate::json_lines::patch::patch_value;
pub use crate::json_lines::patch::{hash_value, patch_object};
use crate::log::{count_of, place_of};
use crate::options::LogOptions;
use crate::patches::Patches;
use dm_named::Named;
use std::alloc::{AllocError, Allocator, Global};

/// Appends the line of the patch at a place. Its value is let go before the next one is made.
fn push_line<A: Allocator>(
    alloc: Global,
    place: usize,
    patch: &Named<A>,
    out: &mut Vec<u8>,
) -> Result<(), AllocError>
    ensures text { OnOk result (out.new.items ≡ out.old.items ++ json_line (place, patch.now)) }
    ensures reads_back { OnOk result (ReadsBack (place, patch.now)) }
{
    let line = patch_value(alloc, place, patch)?.to_vec(alloc)?;
    out.extend_from_slice(&line)?;
    out.push(b'\n')?;
    Ok(())
}

/// A line of JSON for each patch that is chosen; no text where there is none. Which entries a log has, and in which order, `last` and
/// `reverse` say; the other options say nothing here.
pub fn write_json<P: Patches>(
    alloc: Global,
    patches: &P,
    options: LogOptions,
) -> Result<Vec<u8>, AllocError>
    ensures text { IfOk result (λ text. text.items ≡ json_text options (P.patches patches.now)) }
    ensures reads_back { IfOk result (λ text. LinesReadBack options (P.patches patches.now)) }
{
    let all = patches.count();
    let count = count_of(options.last, all);
    let mut text = Vec::new(alloc);
    for k in 0..count {
        let i = place_of(options.reverse, all, count, k);
        push_line(alloc, i + 1, patches.at(i), &mut text)?;
    }
    Ok(text)
}
