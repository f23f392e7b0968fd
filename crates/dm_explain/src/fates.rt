//! What became of each new patch of a bundle.
ghost use Rattle.std.specs.Prelude.{IfOk};
ghost use Rattle.dm_bundle.specs.Patches.{Distinct, infos_of};
ghost use Rattle.dm_explain.specs.Fates.{AreFates, HasFate};

use dm_bundle::Bundle;
use dm_info::Info;
use dm_repo::Repo;
use std::alloc::{AllocError, Global};

/// What became of a new patch of a bundle.
#[derive(Clone, Copy)]
pub enum Fate {
    /// It was held before.
    Held,
    /// It was taken.
    Taken,
    /// It was skipped.
    Skipped,
}

/// The new patches of a bundle by what became of them, each list in the bundle's order.
#[derive(Drop)]
pub struct Fates<'a> {
    /// Those that were held before.
    pub held: Vec<&'a Info<Global>>,
    /// Those that were taken.
    pub taken: Vec<&'a Info<Global>>,
    /// Those that were skipped.
    pub skipped: Vec<&'a Info<Global>>,
}

/// What became of the patch of this name, in a repository that held its first `before` patches before.
fn fate_of(repo: &Repo<Global>, before: usize, info: &Info<Global>) -> Fate
    requires { Distinct (infos_of repo.now.patches) }
    ensures { HasFate repo.now.patches before result info.now }
{
    match repo.position(info) {
        None => Fate::Skipped,
        Some(k) => {
            if k < before {
                return Fate::Held;
            }
            Fate::Taken
        }
    }
}

/// What became of each new patch, in a repository that held its first `before` patches before.
pub(crate) fn fates_of<'a>(
    alloc: Global,
    repo: &Repo<Global>,
    before: usize,
    bundle: &'a Bundle<Global>,
) -> Result<Fates<'a>, AllocError>
    requires { Distinct (infos_of repo.now.patches) }
    ensures { IfOk result (AreFates repo.now.patches before bundle.now) }
{
    let mut held = Vec::new(alloc);
    let mut taken = Vec::new(alloc);
    let mut skipped = Vec::new(alloc);
    for patch in bundle.new_patches() {
        let info = patch.info();
        match fate_of(repo, before, info) {
            Fate::Held => held.push(info)?,
            Fate::Taken => taken.push(info)?,
            Fate::Skipped => skipped.push(info)?,
        }
    }
    Ok(Fates {
        held,
        taken,
        skipped,
    })
}
