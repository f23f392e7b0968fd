//! The file of a mirror: how it is opened, and what is told where it isn't.
ghost use Rattle.std.specs.Prelude.{ℕ, List, IfErr, IfOk, IfSome};
ghost use Rattle.dm_disk.specs.States.{seen, may_leave, file_may_leave, IsFresh};
ghost use Rattle.dm_journal.specs.Device.{IsDurable};
ghost use Rattle.dm_journal.specs.Ready.{IsUntouched};
ghost use Rattle.dm_begin.specs.Bases.{MayHaveBase};
ghost use Rattle.dm_store.specs.Keeping.{IsStored, kept_in};
ghost use Rattle.dm_store.specs.Kinds.{kinds_in};
ghost use Rattle.dm_commands.specs.Mirrors.{HasMirrorFault, IsMirrorOf};
ghost use Rattle.dm_files.specs.Mirrors.{TellsOf, TellsUnkept};

use crate::word_fault::WordFault;
use dm_commands::{MirrorFault, kept_mirror};
use dm_disk::{Access, DiskFile, Lock, OpenFault};
use dm_journal::{Device, Fault, Format, OpenError, unknown_field};
use dm_named::Kinds;
use dm_quoted::Quoted;
use dm_repo::Repo;
use dm_store::{Store, StoreError};
use std::alloc::{AllocError, Global};
use std::fs::File;
use std::io::Read;
use std::rt::Runtime;
use std::thread;
use std::time::Duration;

/// Why the file of a mirror isn't opened.
pub fn unopened<'a>(path: &'a str, fault: OpenFault) -> WordFault<'a> {
    match fault {
        OpenFault::Sync(error) => WordFault::Unsynced(path, error),
        _ => WordFault::Unopened(path, fault),
    }
}

/// The file of a mirror, locked. A wait for the lock is said on a terminal after a second.
pub fn open_file<'a>(
    rt: &HostRuntime,
    path: &'a str,
    no_wait: bool,
    access: Access,
    is_terminal: bool,
) -> Result<DiskFile, WordFault<'a>>
    ensures fresh { IfOk result (IsFresh path.now) }
    ensures durable { IfOk result (IsDurable seen may_leave file_may_leave) }
{
    if no_wait || is_terminal {
        match DiskFile::open(rt, path, access, Lock::Try) {
            Ok(file) => return Ok(file),
            Err(OpenFault::Busy) if !no_wait => {}
            Err(fault) => return Err(unopened(path, fault)),
        }
        thread::sleep(rt, Duration::from_secs(1));
        match DiskFile::open(rt, path, access, Lock::Try) {
            Ok(file) => return Ok(file),
            Err(OpenFault::Busy) => {
                let _ = eprintln!(rt; "dm: waiting for {path}, which somebody else has open");
            }
            Err(fault) => return Err(unopened(path, fault)),
        }
    }
    match DiskFile::open(rt, path, access, Lock::Wait) {
        Ok(file) => Ok(file),
        Err(fault) => Err(unopened(path, fault)),
    }
}

/// Why the file at a path isn't the mirror that was asked for.
pub fn of_kept<'a>(path: &'a str, fault: MirrorFault) -> WordFault<'a>
    ensures unkept { (file : List ℕ) → HasMirrorFault file fault → TellsUnkept file result }
    ensures tells { (file : List ℕ) → HasMirrorFault file fault → TellsOf file result }
{
    match fault {
        MirrorFault::Bad(fault) => WordFault::BadMirror(path, fault),
        MirrorFault::Hidden(at) => WordFault::Hidden(path, at),
    }
}

/// Whether a file isn't opened since its header isn't known.
fn is_unknown(fault: &MirrorFault) -> bool {
    matches!(
        fault,
        MirrorFault::Bad(StoreError::Journal(OpenError::File(Fault::Unknown)))
    )
}

/// How much of a field that isn't known is said.
const SHOWN_BYTES: usize = 60;

/// How much of a file is read for its header.
const HEADER_BYTES: usize = 4096;

/// Says which field of a file's header isn't known here, where the file isn't opened for its header, and that has named fields and
/// stands within the first 4,096 bytes.
fn say_unknown_field(rt: &HostRuntime, path: &str, fault: &MirrorFault) {
    if !is_unknown(fault) {
        return;
    }
    let Ok(mut file) = File::open(rt, path) else {
        return;
    };
    let mut bytes = [0; HEADER_BYTES];
    let Ok(count) = file.read(&mut bytes) else {
        return;
    };
    let Some(field) = unknown_field(&bytes[..count]) else {
        return;
    };
    let text = &field[..field.len().min(SHOWN_BYTES)];
    let shown = Quoted { text };
    let _ = eprintln!(rt; "dm: the journal has a field that this dm doesn't know: {shown}");
}

/// The mirror that a file keeps. Where a field of its header isn't known, that is said on standard error.
pub fn open_store<'a, D: Device + Drop>(
    rt: &HostRuntime,
    path: &'a str,
    device: D,
) -> Result<Store<D>, WordFault<'a>>
    requires { IsDurable D.seen D.may_leave D.file_may_leave device }
    ensures stored { IfOk result (IsStored D.seen D.may_leave D.file_may_leave) }
    ensures keeps { IfOk result (λ store. IsMirrorOf (kinds_in store) (D.seen device) (kept_in store)) }
    ensures untouched { IfOk result (λ store. IsUntouched D.seen D.may_leave D.file_may_leave D.moment D.left_since device store.journal.device) }
    ensures tells { IfErr result (TellsUnkept (D.seen device)) }
{
    match kept_mirror(rt.alloc(), device) {
        Ok(store) => Ok(store),
        Err((fault, device)) => {
            drop(device);
            say_unknown_field(rt, path, &fault);
            Err(of_kept(path, fault))
        }
    }
}

/// What the file of a mirror keeps.
#[derive(Drop)]
pub struct KeptRepo {
    /// The repository.
    pub repo: Repo<Global>,
    /// How many of its patches, from the first, are its base.
    pub base: usize,
    /// The kinds of primitives that the mirror reads.
    pub kinds: Kinds,
    /// The format of the file.
    pub format: Format,
}

impl KeptRepo {
    /// What the kinds are called.
    fn kinds_name(&self) -> &'static str {
        match self.kinds {
            Kinds::Six => "six",
            Kinds::All => "all",
        }
    }

    /// What the format is called: the number of its version, or what its header has.
    fn format_name(&self) -> &'static str {
        match self.format {
            Format::First => "1",
            Format::Second => "2",
            Format::Third => "4",
            Format::Fields(..) => "fields",
        }
    }

    /// A line of the kinds, and one of the format.
    pub fn told_kinds(&self, alloc: Global) -> Result<String, AllocError> {
        let kinds = self.kinds_name();
        let format = self.format_name();
        format!(in alloc; "kinds {kinds}\nformat {format}\n")
    }
}

/// The mirror of this file, to be read.
fn read_mirror<'a>(
    rt: &HostRuntime,
    path: &'a str,
    no_wait: bool,
    is_terminal: bool,
) -> Result<Store<DiskFile>, WordFault<'a>>
    ensures { IfOk result (IsStored seen may_leave file_may_leave) }
{
    let file = open_file(rt, path, no_wait, Access::Read, is_terminal)?;
    open_store(rt, path, file)
}

/// What the mirror of this file keeps; the file is let go.
pub fn read_repo<'a>(
    rt: &HostRuntime,
    path: &'a str,
    no_wait: bool,
    is_terminal: bool,
) -> Result<KeptRepo, WordFault<'a>>
    ensures { IfOk result (λ kept. MayHaveBase kept.repo.patches kept.base) }
{
    let store = read_mirror(rt, path, no_wait, is_terminal)?;
    let kinds = store.kinds();
    let base = store.base();
    let format = store.format();
    let (_, repo) = store.into_parts();
    Ok(KeptRepo {
        repo,
        base,
        kinds,
        format,
    })
}

/// The file of a mirror, if one stands at the path.
pub fn find_file<'a>(
    rt: &HostRuntime,
    path: &'a str,
    no_wait: bool,
    access: Access,
    is_terminal: bool,
) -> Result<Option<DiskFile>, WordFault<'a>>
    ensures fresh { IfOk result (λ found. IfSome found (IsFresh path.now)) }
    ensures durable { IfOk result (λ found. IfSome found (IsDurable seen may_leave file_may_leave)) }
{
    match open_file(rt, path, no_wait, access, is_terminal) {
        Ok(file) => Ok(Some(file)),
        Err(WordFault::Unopened(_, OpenFault::Missing)) => Ok(None),
        Err(fault) => Err(fault),
    }
}

/// Says that a mirror's file has the rights of its owner alone, where others had some.
pub fn say_lost_rights(rt: &HostRuntime, path: &str, file: &DiskFile) {
    if file.lost_rights() {
        let _ = eprintln!(rt;
            "dm: {path} has its owner's rights alone now: give the others theirs again"
        );
    }
}

/// Tells what the system said, where a file could not be written.
pub fn blame<'a>(fault: WordFault<'a>, file: &DiskFile) -> WordFault<'a>
    ensures { (bytes : List ℕ) → TellsOf bytes fault.entry → TellsOf bytes result }
{
    match (fault, file.error()) {
        (WordFault::Unwritten(path, _), Some(error)) if file.failed_to_sync() => {
            WordFault::Unsynced(path, error)
        }
        (WordFault::Unwritten(path, _), Some(error)) => WordFault::Failed(path, error),
        (fault, _) => fault,
    }
}
