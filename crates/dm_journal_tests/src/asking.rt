//! What the tests ask of files.
ghost use Rattle.std.specs.Prelude.{◌≡◌, ℕ, List, length, IfSome};
ghost use Rattle.dm_journal.specs.Faults.{HasFault};
ghost use Rattle.dm_journal.specs.Hidden.{Hides};
ghost use Rattle.dm_journal.specs.Journal.{StandsFor};

use dm_journal::{Fault, Journal, Memory, OpenError};
use std::alloc::Global;

/// The fault of a file of these bytes. `None` if it has none, or if memory ran out.
pub fn fault_of(alloc: Global, bytes: &[u8]) -> Option<Fault>
    ensures { IfSome result (HasFault bytes.now) }
{
    let Ok(bytes) = bytes.to_vec(alloc) else {
        return None;
    };
    match Journal::open(alloc, Memory::new(alloc, bytes)) {
        Err((OpenError::File(fault), _)) => Some(fault),
        _ => None,
    }
}

/// How many texts a file of these bytes stands for. `None` if it has a fault, or if memory ran out.
pub fn texts_in(alloc: Global, bytes: &[u8]) -> Option<usize>
    ensures { IfSome result (λ count. (texts : List (List ℕ)) × StandsFor bytes.now texts × (count ≡ length texts)) }
{
    let Ok(bytes) = bytes.to_vec(alloc) else {
        return None;
    };
    match Journal::open(alloc, Memory::new(alloc, bytes)) {
        Ok((_journal, texts)) => Some(texts.len()),
        Err(_) => None,
    }
}

/// The place of the closed latch of a file of these bytes that hides blocks. `None` if it hides none, or if memory ran out.
pub fn hidden_in(alloc: Global, bytes: &[u8]) -> Option<usize>
    ensures { IfSome result (Hides bytes.now) }
{
    let Ok(bytes) = bytes.to_vec(alloc) else {
        return None;
    };
    match Journal::open(alloc, Memory::new(alloc, bytes)) {
        Ok((journal, _texts)) => journal.hidden(),
        Err(_) => None,
    }
}
