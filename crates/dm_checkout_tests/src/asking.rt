//! What the tests ask of logs.
ghost use Rattle.std.specs.Prelude.{◌≡◌, IsTrue};
ghost use Rattle.dm_log.specs.Entries.{entry_text};

use dm_info::Info;
use dm_log::push_entry;
use std::alloc::Global;

/// Whether the entry of a patch is this text. `false` also if memory ran out.
pub fn is_entry(alloc: Global, info: &Info<Global>, text: &[u8]) -> bool
    ensures { IsTrue result → entry_text info.now ≡ text.now }
{
    let mut out = Vec::new(alloc);
    match push_entry(info, &mut out) {
        Ok(()) => out.as_slice() == text,
        Err(_) => false,
    }
}
