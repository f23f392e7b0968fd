//! What a run leaves.
ghost use Rattle.dm_mirror.specs.Mirrors.{AreComplete};

use crate::jobs::Kept;
use crate::mirror::Mirror;
use dm_mail::Mail;
use dm_repo::Repo;
use dm_scratch::Verdict;
use std::alloc::Global;
use std::collections::VecDeque;
use std::snapshot::Snapshot;

/// What each mirror took in a run, with the verdicts and its repository, and what each poster sent.
#[derive(Drop)]
pub struct Outcome {
    pub(crate) posters: usize,
    pub(crate) mirrors: Vec<Mirror>,
    // Out of which inlet each mirror took, as its thread handed it back. Contracts alone see it.
    pub(crate) kept: Snapshot<VecDeque<Kept>>,
    ghost complete: { AreComplete posters mirrors.items },
}

impl Outcome {
    ghost use Rattle.std.specs.Prelude.{◌≡◌, ◌↔◌, ◌<◌, IsTrue, length};
    ghost use Rattle.dm_mirror.specs.Runs.{AllAccepted, HasClosed, HasMails, HasRepo, HasVerdict, IsAt, IsReceipt, mails_at, mirror_count};

    /// How many mirrors there were.
    pub fn mirrors(&self) -> usize
        ensures { result ≡ mirror_count self.now }
    {
        self.mirrors.len()
    }

    /// The mirror of this number.
    fn mirror(&self, m: usize) -> &Mirror
        requires { m < mirror_count self.now }
        ensures { IsAt self.now m result.now }
    {
        &self.mirrors[m]
    }

    /// The mails that a mirror took, in the order in which it took them.
    pub fn mails(&self, m: usize) -> &[Mail]
        requires { m < mirror_count self.now }
        ensures mirror { HasMails self.now m result.now }
        ensures mails { result.now ≡ mails_at self.now m }
    {
        self.mirror(m).mails.as_slice()
    }

    /// The verdict on a mail, by its place among those that a mirror took. A mark has none.
    pub fn verdict(&self, m: usize, k: usize) -> Option<Verdict>
        requires { (m < mirror_count self.now) × (k < length (mails_at self.now m)) }
        ensures { HasVerdict self.now m k result }
    {
        self.mirror(m).verdicts[k]
    }

    /// Whether a mirror took the mark of a poster.
    pub fn closed(&self, m: usize, poster: usize) -> bool
        requires { m < mirror_count self.now }
        ensures { HasClosed self.now m poster result }
    {
        self.mirror(m).has_mark(poster)
    }

    /// The repository of a mirror, after all that it took.
    pub fn repo(&self, m: usize) -> &Repo<Global>
        requires { m < mirror_count self.now }
        ensures { HasRepo self.now m result.now }
    {
        &self.mirror(m).repo
    }

    /// Whether every mirror took every bundle into its repository, or had its patches already.
    pub fn all_accepted(&self) -> bool
        ensures { IsTrue result ↔ AllAccepted self.now }
    {
        self.mirrors.iter().all(|mirror| mirror.all_accepted())
    }

    /// What a poster sent to a mirror: how many bundles were accepted, and whether its mark. `None` where there is no such
    /// poster or no such mirror.
    pub fn sent(&self, poster: usize, m: usize) -> Option<(usize, bool)>
        ensures { IsReceipt self.now poster m result }
    {
        self.mirrors.get(m)?.receipt(poster)
    }
}
