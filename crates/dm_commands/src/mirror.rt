//! The mirror that a device keeps, or a new one where it keeps none.
ghost use Rattle.std.specs.Prelude.{◌≡◌, ◌≢◌, ◌↔◌, ◌⊎◌, ◌<◌, [], IfErr, IfOk, IsTrue};
ghost use Rattle.dm_journal.specs.Device.{IsDurable, LeavesOnly};
ghost use Rattle.dm_journal.specs.Ready.{IsUntouched};
ghost use Rattle.dm_journal.specs.declared.device.DeviceError.TheVariants.{Failed};
ghost use Rattle.dm_journal.specs.declared.fault.OpenError.TheVariants.{Device as OpeningDevice};
ghost use Rattle.dm_journal.specs.declared.fault.WriteError.{WriteError};
ghost use Rattle.dm_store.specs.Keeping.{IsOrKeeps, IsStored, kept_as, kept_in};
ghost use Rattle.dm_store.specs.Kinds.{kinds_in};
ghost use Rattle.dm_store.specs.declared.fault.StoreError.TheVariants.{Journal as OpeningJournal};
ghost use Rattle.dm_commands.specs.Mirrors.{FailsToBegin, HasMirrorFault, IsInTheWay, IsMirrorOf, IsUnwritten};
ghost use Rattle.dm_commands.specs.declared.mirror.MirrorFault.TheVariants.{Bad};
ghost use Rattle.dm_commands.specs.declared.mirror.Unbegun.TheVariants.{IsThere, Unwritten};

use dm_journal::{Device, WriteError};
use dm_named::Kinds;
use dm_repo::Repo;
use dm_store::{Store, StoreError};
use std::alloc::Global;

/// Why what a device has can't be used as a mirror.
#[derive(Clone, Copy, Debug)]
pub enum MirrorFault {
    /// It is no mirror, or can't be read.
    Bad(StoreError),
    /// It is one, and the closed latch at this place hides bundles behind it.
    Hidden(usize),
}

/// Why no mirror was begun.
#[derive(Clone, Copy, Debug)]
pub enum Unbegun {
    /// The device has bytes, and keeps no mirror that can be used.
    Kept(MirrorFault),
    /// The device keeps a mirror, where a new one was to be made.
    IsThere,
    /// The new mirror could not be written.
    Unwritten(WriteError),
}

/// The mirror that a device keeps. One in which a changed byte hides bundles isn't opened. Nothing is written, and at an error the
/// device comes back.
pub fn kept_mirror<D: Device>(alloc: Global, device: D) -> Result<Store<D>, (MirrorFault, D)>
    requires { IsDurable D.seen D.may_leave D.file_may_leave device }
    ensures stored { IfOk result (IsStored D.seen D.may_leave D.file_may_leave) }
    ensures keeps { IfOk result (λ store. IsMirrorOf (kinds_in store) (D.seen device) (kept_in store)) }
    ensures untouched { IfOk result (λ store. IsUntouched D.seen D.may_leave D.file_may_leave D.moment D.left_since device store.journal.device) }
    ensures untouched_err { IfErr result (λ e. IsUntouched D.seen D.may_leave D.file_may_leave D.moment D.left_since device e.1) }
    ensures fault { IfErr result (λ e. HasMirrorFault (D.seen device) e.0) }
    ensures failed { IfErr result (λ e. e.0 ≡ Bad (OpeningJournal (OpeningDevice Failed)) → D.faults device < D.faults e.1) }
{
    let store = match Store::open(alloc, device) {
        Ok(store) => store,
        Err((fault, device)) => return Err((MirrorFault::Bad(fault), device)),
    };
    match store.hidden() {
        None => Ok(store),
        Some(at) => Err((MirrorFault::Hidden(at), store.into_device())),
    }
}

/// A mirror of these kinds that begins with this repository and this base, on a device without bytes.
fn first_mirror<D: Device>(
    alloc: Global,
    device: D,
    start: Repo<Global>,
    base: usize,
    kinds: Kinds,
) -> Result<Store<D>, (Unbegun, D)>
    requires durable { IsDurable D.seen D.may_leave D.file_may_leave device }
    requires empty { D.seen device ≡ [] }
    ensures stored { IfOk result (IsStored D.seen D.may_leave D.file_may_leave) }
    ensures kinds { IfOk result (λ store. kinds_in store ≡ kinds) }
    ensures same { IfOk result (λ store. store.repo ≡ start) }
    ensures base { IfOk result (λ store. store.base ≡ base) }
    ensures any_moment { IfOk result (λ store. LeavesOnly D.moment D.left_since device store.journal.device (IsOrKeeps kinds [] (kept_as base start.patches))) }
    ensures is_unwritten { IfErr result (λ e. IsUnwritten e.0) }
    ensures unwritten { IfErr result (λ e. (error : WriteError) → e.0 ≡ Unwritten error → FailsToBegin D.moment D.left_since D.faults kinds (kept_as base start.patches) device e.1 error) }
{
    match Store::create(alloc, device, start, base, kinds) {
        Ok(store) => Ok(store),
        Err((error, device)) => Err((Unbegun::Unwritten(error), device)),
    }
}

/// A new mirror of these kinds that begins with this repository, whose first patches, so many of them, are its base. A device that isn't known to be empty gets none, and stays as it
/// is. At an error the device comes back.
pub fn new_mirror<D: Device>(
    alloc: Global,
    device: D,
    is_empty: bool,
    start: Repo<Global>,
    base: usize,
    kinds: Kinds,
) -> Result<Store<D>, (Unbegun, D)>
    requires durable { IsDurable D.seen D.may_leave D.file_may_leave device }
    requires empty { IsTrue is_empty → D.seen device ≡ [] }
    ensures stored { IfOk result (IsStored D.seen D.may_leave D.file_may_leave) }
    ensures kinds { IfOk result (λ store. kinds_in store ≡ kinds) }
    ensures begun { IfOk result (λ store. (D.seen device ≡ []) × (store.repo ≡ start) × (store.base ≡ base)) }
    ensures any_moment { IfOk result (λ store. LeavesOnly D.moment D.left_since device store.journal.device (IsOrKeeps kinds [] (kept_as base start.patches))) }
    ensures in_the_way { IfErr result (λ e. IsInTheWay (D.seen device) e.0) }
    ensures only_unwritten { IfErr result (λ e. IsTrue is_empty ↔ IsUnwritten e.0) }
    ensures untouched { IfErr result (λ e. ¬ IsUnwritten e.0 → IsUntouched D.seen D.may_leave D.file_may_leave D.moment D.left_since device e.1) }
    ensures unwritten { IfErr result (λ e. (error : WriteError) → e.0 ≡ Unwritten error → FailsToBegin D.moment D.left_since D.faults kinds (kept_as base start.patches) device e.1 error) }
{
    if is_empty {
        return first_mirror(alloc, device, start, base, kinds);
    }
    match kept_mirror(alloc, device) {
        Ok(store) => Err((Unbegun::IsThere, store.into_device())),
        Err((fault, device)) => Err((Unbegun::Kept(fault), device)),
    }
}

/// The mirror that a device keeps, or where that is empty a new one of these kinds, which begins with this repository, whose first
/// patches, so many of them, are its base. At an error
/// the device comes back; it was written only if it was empty.
pub fn kept_or_new_mirror<D: Device>(
    alloc: Global,
    device: D,
    is_empty: bool,
    start: Repo<Global>,
    base: usize,
    kinds: Kinds,
) -> Result<Store<D>, (Unbegun, D)>
    requires durable { IsDurable D.seen D.may_leave D.file_may_leave device }
    requires empty { IsTrue is_empty → D.seen device ≡ [] }
    ensures stored { IfOk result (IsStored D.seen D.may_leave D.file_may_leave) }
    ensures kept { IfOk result (λ store. IsMirrorOf (kinds_in store) (D.seen device) (kept_in store)
        ⊎ ((D.seen device ≡ []) × (store.repo ≡ start) × (store.base ≡ base) × (kinds_in store ≡ kinds))) }
    ensures untouched { IfOk result (λ store. IsTrue is_empty
        ⊎ IsUntouched D.seen D.may_leave D.file_may_leave D.moment D.left_since device store.journal.device) }
    ensures any_moment { IfOk result (λ store. LeavesOnly D.moment D.left_since device store.journal.device (IsOrKeeps kinds (D.seen device) (kept_as base start.patches))) }
    ensures opened { IfOk result (λ store. LeavesOnly D.moment D.left_since device store.journal.device (IsOrKeeps (kinds_in store) (D.seen device) (kept_in store))) }
    ensures no_other { IfErr result (λ e. e.0 ≢ IsThere) }
    ensures in_the_way { IfErr result (λ e. IsInTheWay (D.seen device) e.0) }
    ensures only_unwritten { IfErr result (λ e. IsTrue is_empty ↔ IsUnwritten e.0) }
    ensures untouched_err { IfErr result (λ e. ¬ IsUnwritten e.0 → IsUntouched D.seen D.may_leave D.file_may_leave D.moment D.left_since device e.1) }
    ensures unwritten { IfErr result (λ e. (error : WriteError) → e.0 ≡ Unwritten error → FailsToBegin D.moment D.left_since D.faults kinds (kept_as base start.patches) device e.1 error) }
{
    if !is_empty {
        return match kept_mirror(alloc, device) {
            Ok(store) => Ok(store),
            Err((fault, device)) => Err((Unbegun::Kept(fault), device)),
        };
    }
    first_mirror(alloc, device, start, base, kinds)
}
