//! `dm upgrade`: a mirror that reads six kinds comes to read all.
ghost use Rattle.std.specs.Prelude.{◌≡◌, IfErr, IfOk};
ghost use Rattle.dm_disk.specs.States.{seen, may_leave, file_may_leave, moment, left_since};
ghost use Rattle.dm_journal.specs.Device.{LeavesOnly};
ghost use Rattle.dm_named.specs.declared.limits.Kinds.TheVariants.{All};
ghost use Rattle.dm_store.specs.Keeping.{IsStored, KeepsForEither, kept_in};
ghost use Rattle.dm_store.specs.Kinds.{kinds_in};
ghost use Rattle.dm_files.specs.Mirrors.{TellsOf};

use crate::mirror::{blame, open_file, open_store, say_lost_rights};
use crate::word_fault::WordFault;
use dm_commands::write_text;
use dm_disk::{Access, DiskFile};
use dm_journal::{ChecksumField, Format, KindsField};
use dm_store::Store;
use dm_told::Said;
use dm_words::Upgrade;
use std::io;
use std::rt::Runtime;

/// Puts the same mirror, which reads all kinds, in the place of the file at a path.
fn widen_store<'a>(
    rt: &HostRuntime,
    path: &'a str,
    store: Store<DiskFile>,
) -> Result<Store<DiskFile>, WordFault<'a>>
    requires { IsStored seen may_leave file_may_leave store }
    ensures same { IfOk result (λ wider. kept_in wider ≡ kept_in store) }
    ensures kinds { IfOk result (λ wider. kinds_in wider ≡ All) }
    ensures stored { IfOk result (IsStored seen may_leave file_may_leave) }
    // A crash at any moment leaves a file that keeps the same patches.
    ensures any_moment { IfOk result (λ wider. LeavesOnly moment left_since store.journal.device wider.journal.device
        (KeepsForEither (kinds_in store) All (kept_in store))) }
    ensures tells { IfErr result (TellsOf (seen store.journal.device)) }
{
    match store.widen(rt.alloc()) {
        Ok(wider) => Ok(wider),
        Err((fault, file)) => Err(blame(WordFault::Unwritten(path, fault), &file)),
    }
}

/// Whether the file of a mirror is of the format of today, and reads all kinds.
fn is_current(store: &Store<DiskFile>) -> bool {
    store.format() == Format::Fields(KindsField::All, ChecksumField::Lanes)
}

/// `dm upgrade`.
pub fn upgrade<'a>(
    rt: &HostRuntime,
    asked: &Upgrade<'a>,
    is_terminal: bool,
) -> Result<u8, WordFault<'a>> {
    let path = asked.mirror;
    let file = open_file(rt, path, asked.no_wait, Access::Write, is_terminal)?;
    let store = open_store(rt, path, file)?;
    if is_current(&store) {
        let _ = eprintln!(rt; "dm: {path} reads all kinds already");
    } else {
        let wider = widen_store(rt, path, store)?;
        say_lost_rights(rt, path, &wider.into_device());
    }
    let line = Said::ReadsAllKinds(path).line(rt.alloc())?;
    write_text(&line, &mut io::writer(rt))?;
    Ok(0)
}
