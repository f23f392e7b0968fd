//! Where a path of a tree is written.
ghost use Rattle.std.specs.Prelude.{◌≡◌, ◌↔◌, IfOk, IsTrue};
ghost use Rattle.std.specs.List.{All};
ghost use Rattle.std.specs.Str.{IsUtf8};
ghost use Rattle.dm_checkout.specs.Places.{place_text};

use dm_tree::Path;
use std::alloc::{AllocError, Allocator};

/// The text of a path in a folder: that of the folder, and each name after a slash.
pub fn place_of<A: Allocator, B: Allocator>(
    alloc: B,
    folder: &str,
    path: &Path<A>,
) -> Result<Vec<u8, B>, AllocError>
    ensures { IfOk result (λ place. place.items ≡ place_text folder.now path.now) }
{
    let mut place = Vec::from_slice(alloc, folder.as_bytes())?;
    for i in 0..path.len() {
        place.push(b'/')?;
        place.extend_from_slice(path.part(i))?;
    }
    Ok(place)
}
