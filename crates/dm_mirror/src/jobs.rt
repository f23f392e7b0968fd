//! What each thread is given, and what it hands back.
ghost use Rattle.std.specs.Prelude.{◌≡◌, ◌≤◌, ◌+◌, ℕ, [], length};
ghost use Rattle.dm_mail.specs.Limits.{most_bundles};
ghost use Rattle.dm_mail.specs.Ends.{outlet_mails, outlet_poster, all_taken, inlet_posters};
ghost use Rattle.dm_mirror.specs.Deliveries.{SentUpTo};
ghost use Rattle.dm_mirror.specs.Mirrors.{IsReady};

use crate::mirror::Mirror;
use dm_mail::{Inlet, Outlet, Text};
use dm_repo::Policy;
use std::collections::VecDeque;
use std::snapshot::Snapshot;

// A poster's outlet to one mirror, with the texts that it still has to send there, of all its texts.
#[derive(Drop)]
pub(crate) struct Line {
    pub(crate) outlet: Outlet,
    pub(crate) left: VecDeque<Text>,
    pub(crate) texts: Snapshot<VecDeque<Text>>,
    ghost so_far: { SentUpTo (outlet_poster outlet) (outlet_mails outlet) left.items texts.value.items },
    ghost few: { length (outlet_mails outlet) + length left.items ≤ most_bundles },
}

// A poster's outlet to one mirror, which has sent nothing yet, with all texts that it is to send there. It has no Snapshot, so
// that it is seen that it may be sent to a thread.
#[derive(Drop)]
pub(crate) struct NewLine {
    pub(crate) outlet: Outlet,
    pub(crate) left: VecDeque<Text>,
    ghost unsent: { outlet_mails outlet ≡ [] },
    ghost few: { length left.items ≤ most_bundles },
}

// A poster's lines, one to each mirror, and how many texts there are.
#[derive(Drop)]
pub(crate) struct PostJob {
    pub(crate) lines: VecDeque<NewLine>,
    pub(crate) rounds: usize,
}

// A mirror with this number that has taken nothing yet, with its inlet.
#[derive(Drop)]
pub(crate) struct TakeJob {
    pub(crate) number: usize,
    pub(crate) inlet: Inlet,
    pub(crate) mirror: Mirror,
    pub(crate) policy: Policy,
    pub(crate) expected: usize,
    ghost fresh: { all_taken inlet ≡ [] },
    ghost ready: { IsReady (inlet_posters inlet) expected mirror },
}

// A mirror that has taken its mails, with its inlet.
#[derive(Drop)]
pub(crate) struct Kept {
    pub(crate) inlet: Inlet,
    pub(crate) mirror: Mirror,
}
