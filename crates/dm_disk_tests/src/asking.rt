//! What the tests ask of files.
ghost use Rattle.std.specs.Prelude.{◌≡◌, List, ℕ, length, IfSome};
ghost use Rattle.dm_disk.specs.States.{seen, may_leave, file_may_leave};
ghost use Rattle.dm_journal.specs.Device.{IsDurable};
ghost use Rattle.dm_journal.specs.Journal.{StandsFor};

use dm_disk::DiskFile;
use dm_journal::Journal;
use std::alloc::Global;

/// How many texts the journal has that a file stands for. `None` if it is no journal, or if memory ran out.
pub fn texts_in(alloc: Global, file: DiskFile) -> Option<usize>
    requires { IsDurable seen may_leave file_may_leave file }
    ensures { IfSome result (λ count. (texts : List (List ℕ)) × StandsFor (seen file) texts × (count ≡ length texts)) }
{
    match Journal::open(alloc, file) {
        Ok((_, texts)) => Some(texts.len()),
        Err(_) => None,
    }
}
