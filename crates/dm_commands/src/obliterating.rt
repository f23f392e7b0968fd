//! The command `dm obliterate`: patches are taken out of a mirror, and kept as a bundle.
ghost use Rattle.std.specs.Prelude.{◌≡◌, ◌≢◌, ◌⊎◌, [], Err, IfErr, IfNone, IfOk, IfSome, IsTrue, OnOk};
ghost use Rattle.dm_journal.specs.declared.fault.WriteError.{WriteError};
ghost use Rattle.dm_journal.specs.Device.{IsDurable, LeavesOnly};
ghost use Rattle.dm_begin.specs.Bases.{MayHaveBase};
ghost use Rattle.dm_send.specs.Obliterating.{RefusesToObliterate};
ghost use Rattle.dm_store.specs.Keeping.{CrashesKeep, FitsOneEntry, IsStored, kept_as, kept_in};
ghost use Rattle.dm_store.specs.Kinds.{kinds_in};
ghost use Rattle.dm_store.specs.LettingGo.{LosesNothing};
ghost use Rattle.dm_commands.specs.Obliterating.{NamesBase, ObliteratesBehind, TakesOut};
ghost use Rattle.dm_commands.specs.declared.obliterating.Unkept.TheVariants as unkept;

use crate::tag::{is_lawful, names_base};
use dm_begin::cut_base;
use dm_info::Info;
use dm_journal::{Device, WriteError, replace_file};
use dm_repo::{Refusal, Repo};
use dm_send::{Obliterated, obliterate};
use dm_store::Store;
use std::alloc::Global;

/// Which of two files could not be written.
#[derive(Clone, Copy, Debug)]
pub enum Unkept {
    /// That of the bundle: the mirror is as it was.
    Bundle(WriteError),
    /// That of the mirror, once the bundle was on the disk.
    Mirror(WriteError),
}

/// Puts the bundle of what goes into a file, and once it is on the disk has the mirror let go of it. `false` where what stays is past
/// the limits of a repository of one's own, or may not have the mirror's base: the mirror is as it was then.
pub fn keep_and_let_go<D: Device, F: Device>(
    alloc: Global,
    store: &mut Store<D>,
    file: &mut F,
    text: &[u8],
    stays: Repo<Global>,
) -> Result<bool, Unkept>
    requires stored { IsStored D.seen D.may_leave D.file_may_leave store.old }
    requires durable { IsDurable F.seen F.may_leave F.file_may_leave file.old }
    requires takes_out { TakesOut (kinds_in store.old) store.old.repo.patches stays.patches text.now }

    ensures done { IfOk result (λ done. IsTrue done → store.new.repo ≡ stays) }
    ensures too_large { IfOk result (λ done. ¬ IsTrue done → MayHaveBase stays.patches store.old.base → (stays.patches ≢ []) × (FitsOneEntry stays.patches → ⊥)) }
    ensures unless_done { IfOk result (λ done. ¬ IsTrue done → store.new ≡ store.old) }
    ensures unless_kept { (fault : WriteError) → result ≡ Err (unkept.Bundle fault) → store.new ≡ store.old }
    ensures kept_before { (fault : WriteError) → result ≡ Err (unkept.Mirror fault) → IsDurable F.seen F.may_leave F.file_may_leave file.new × (F.seen file.new ≡ text.now) }
    ensures stored { OnOk result (IsStored D.seen D.may_leave D.file_may_leave store.new) }
    ensures keeps { OnOk result (CrashesKeep (kinds_in store.old) D.may_leave store.new.journal.device (kept_as store.old.base store.new.repo.patches)) }
    ensures kept { OnOk result (IsDurable F.seen F.may_leave F.file_may_leave file.new × (F.seen file.new ≡ text.now)) }

    // The mirror isn't touched before the bundle is on the disk.
    ensures order { (store.new ≡ store.old) ⊎ (IsDurable F.seen F.may_leave F.file_may_leave file.new × (F.seen file.new ≡ text.now)) }

    // A crash at any moment loses no patch, once the mirror is touched: the one file or the other has it. It leaves the file of
    // the bundle as it was, or whole.
    ensures any_moment { (store.new ≡ store.old) ⊎ LeavesOnly D.moment D.left_since store.old.journal.device store.new.journal.device
        (LosesNothing (kinds_in store.old) (kept_in store.old) (kept_as store.old.base stays.patches) (F.may_leave file.new)) }
    ensures file { LeavesOnly F.moment F.left_since file.old file.new (λ c. (c ≡ F.seen file.old) ⊎ (c ≡ text.now)) }
{
    if let Err(fault) = replace_file(file, text) {
        return Err(Unkept::Bundle(fault));
    }
    match store.let_go(alloc, stays, file) {
        Ok(done) => Ok(done),
        Err(fault) => Err(Unkept::Mirror(fault)),
    }
}

/// Takes the patches of these names out of a repository, and what is bound to them; `None` where one of the names is of its base, the
/// first patches, so many of them. Of the base the bundle names the last patch alone. What stays takes the bundle.
pub fn obliterate_unless_base(
    alloc: Global,
    repo: &Repo<Global>,
    base: usize,
    chosen: &[Info<Global>],
) -> Result<Option<Obliterated<Global>>, Refusal>
    ensures base { IfOk result (λ out. IfNone out (NamesBase repo.now.patches base chosen.now)) }
    ensures obliterates { IfOk result (λ out. IfSome out (λ o. ObliteratesBehind repo.now.patches base chosen.now o.repo.patches o.bundle o.bound.items)) }
    ensures refusal { IfErr result (RefusesToObliterate repo.now.patches base chosen.now) }
{
    if names_base(repo, base, chosen) {
        return Ok(None);
    }
    is_lawful(repo);
    let out = obliterate(alloc, repo, base, chosen)?;
    let bundle = cut_base(alloc, alloc, repo, base, out.bundle)?;
    Ok(Some(Obliterated {
        repo: out.repo,
        bundle,
        bound: out.bound,
    }))
}
