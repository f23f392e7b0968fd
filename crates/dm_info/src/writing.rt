//! Writing the canonical text.

ghost use Rattle.std.specs.Prelude.{◌≡◌, ◌++◌, ◌∷◌, [], OnOk, OnErr, IfOk};
ghost use Rattle.dm_info.specs.PatchInfo.{IsInfo};
ghost use Rattle.dm_info.specs.Spelling.{opening, canonical_end, canonical};

use crate::info::Info;
use std::alloc::{AllocError, Allocator};

fn push_opening<A: Allocator, B: Allocator>(
    info: &Info<A>,
    out: &mut Vec<u8, B>,
) -> Result<(), AllocError>
    ensures { OnOk result (out.new.items ≡ out.old.items ++ opening info.now) }
{
    out.push(b'[')?;
    out.extend_from_slice(info.name())?;
    out.push(b'\n')?;
    out.extend_from_slice(info.author())?;
    out.extend_from_slice(b"**")?;
    out.extend_from_slice(info.date())?;
    Ok(())
}

fn push_end<A: Allocator, B: Allocator>(
    info: &Info<A>,
    out: &mut Vec<u8, B>,
) -> Result<(), AllocError>
    ensures text { OnOk result (out.new.items ≡ out.old.items ++ canonical_end info.now.log) }
    ensures valid { OnOk result (IsInfo info.now) }
{
    let count = info.log_len();
    if count > 0 {
        out.push(b'\n')?;
    }
    for i in 0..count {
        out.push(b' ')?;
        out.extend_from_slice(info.log_line(i))?;
        out.push(b'\n')?;
    }
    out.push(b']')?;
    Ok(())
}

/// Appends the canonical text straight away: if an allocation fails, a part of it may stand there.
/// For a writer that gives up its whole text then; [`write_info`] changes nothing.
pub fn push_info<A: Allocator, B: Allocator>(
    info: &Info<A>,
    out: &mut Vec<u8, B>,
) -> Result<(), AllocError>
    ensures ok { OnOk result (out.new.items ≡ out.old.items ++ canonical info.now) }
    // What was written is a valid patch info, so its text is read again as it.
    ensures valid { OnOk result (IsInfo info.now) }
{
    push_opening(info, out)?;
    push_end(info, out)?;
    out.push(b' ')?;
    Ok(())
}

/// Appends the canonical text. A failed allocation changes nothing.
pub fn write_info<A: Allocator, B: Allocator + Copy>(
    info: &Info<A>,
    out: &mut Vec<u8, B>,
) -> Result<(), AllocError>
    ensures ok { OnOk result (out.new.items ≡ out.old.items ++ canonical info.now) }
    // What was written is a valid patch info, so its text is read again as it.
    ensures valid { OnOk result (IsInfo info.now) }
    ensures err { OnErr result (out.new.items ≡ out.old.items) }
{
    let mut text = Vec::new(*out.allocator());
    push_info(info, &mut text)?;
    out.extend_from_slice(&text)?;
    Ok(())
}
