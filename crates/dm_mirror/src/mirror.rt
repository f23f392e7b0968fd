//! A mirror.
ghost use Rattle.std.specs.Prelude.{◌≡◌, ◌↔◌, IsTrue, IfOk, slice_get};
ghost use Rattle.std.specs.List.{All};
ghost use Rattle.dm_mail.specs.Mails.{mails_of, is_closed};
ghost use Rattle.dm_mirror.specs.Mirrors.{IsReady};
ghost use Rattle.dm_mirror.specs.Runs.{IsFine};

use dm_mail::{Body, Mail};
use dm_repo::Repo;
use dm_scratch::Verdict;
use std::alloc::{AllocError, Global};

// A mirror: its repository, the mails that it took, the verdict of each (none of a mark), and what each poster sent to it:
// how many bundles, and whether its mark. Generic, so that it is seen once that the rest may be sent to a thread where the
// repository may.
#[derive(Drop)]
pub(crate) struct MirrorOf<R> {
    pub(crate) repo: R,
    pub(crate) mails: Vec<Mail>,
    pub(crate) verdicts: Vec<Option<Verdict>>,
    pub(crate) receipts: Vec<(usize, bool)>,
}

// A mirror of a repository.
pub(crate) type Mirror = MirrorOf<Repo<Global>>;

impl MirrorOf<Repo<Global>> {
    /// A mirror of this repository, with room for so many mails, and for what so many posters sent.
    pub(crate) fn new(
        alloc: Global,
        repo: Repo<Global>,
        posters: usize,
        expected: usize,
    ) -> Result<Mirror, AllocError>
        ensures ready { IfOk result (IsReady posters expected) }
        ensures repo { IfOk result (λ mirror. mirror.repo.patches ≡ repo.patches) }
    {
        Ok(MirrorOf {
            repo,
            mails: Vec::with_capacity(alloc, expected)?,
            verdicts: Vec::with_capacity(alloc, expected)?,
            receipts: Vec::with_capacity(alloc, posters)?,
        })
    }
}

impl<R> MirrorOf<R> {
    /// Whether it took the mark of a poster.
    pub(crate) fn has_mark(&self, poster: usize) -> bool
        ensures { result ≡ is_closed (mails_of poster self.now.mails.items) }
    {
        for mail in &self.mails {
            if mail.poster == poster && matches!(mail.body, Body::Close) {
                return true;
            }
        }
        false
    }

    /// Whether each bundle was taken into the repository, or brought nothing new.
    pub(crate) fn all_accepted(&self) -> bool
        ensures { IsTrue result ↔ All IsFine self.now.verdicts.items }
    {
        self.verdicts.iter().all(is_fine)
    }

    /// What a poster sent, where there is such a poster.
    pub(crate) fn receipt(&self, poster: usize) -> Option<(usize, bool)>
        ensures { result ≡ slice_get self.now.receipts.items poster }
    {
        let receipt = self.receipts.get(poster)?;
        Some(*receipt)
    }
}

/// Whether a verdict is that the repository has the bundle's patches. A mark has none.
fn is_fine(verdict: &Option<Verdict>) -> bool
    ensures { IsTrue result ↔ IsFine verdict.now }
{
    match verdict {
        None => true,
        Some(verdict) => verdict.is_accepted(),
    }
}
