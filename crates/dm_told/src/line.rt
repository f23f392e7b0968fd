//! The line of an object.
ghost use Rattle.std.specs.Prelude.{◌≡◌, ◌≤◌, ◌++◌, codes, false, IfOk, Some};
ghost use Rattle.serde_json.specs.Data.{depth, object};
ghost use Rattle.serde_json.specs.Read.{max_depth, read};
ghost use Rattle.serde_json.specs.Written.{compact_text, has_float};
ghost use Rattle.dm_log.specs.JsonObjects.{members_in};

use dm_log::Object;
use std::alloc::{AllocError, Global};

/// The compact text of an object, and a newline.
pub(crate) fn line_of(alloc: Global, built: Object) -> Result<Vec<u8>, AllocError>
    requires exact { has_float (object (members_in built)) ≡ false }
    requires shallow { depth (object (members_in built)) ≤ max_depth }
    ensures text { IfOk result (λ line. line.items ≡ compact_text (object (members_in built)) ++ codes "\n") }
    ensures reads_back { IfOk result (λ _. read (compact_text (object (members_in built))) ≡ Some (object (members_in built))) }
{
    let mut line = built.into_value().to_vec(alloc)?;
    line.push(b'\n')?;
    Ok(line)
}
