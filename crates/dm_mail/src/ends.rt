//! The ends of a mirror's mail. Each holds the pass that says what its thread sent or took.
ghost use Rattle.std.specs.Prelude.{◌≡◌, ◌≤◌, true, false, length};
ghost use Rattle.crossbeam_channel.specs.Claims.{view, IsSeatAt};
ghost use Rattle.crossbeam_channel.specs.Ends.{sends_on, receives_on, ruled_capacity};
ghost use Rattle.dm_mail.specs.Limits.{most_bundles};
ghost use Rattle.dm_mail.specs.Mails.{is_closed, count_bundles, count_marks};

use crate::mail::Mail;
use crate::rule::InOrder;
use crate::view::View;
use crossbeam_channel::{Pass, RuledReceiver, RuledSender};

/// A poster's end of a mirror's mail, as long as it may send.
#[derive(Drop)]
pub struct Outlet {
    pub(crate) sender: RuledSender<Mail, View, InOrder>,
    pub(crate) pass: Pass<Mail, View>,
    pub(crate) poster: usize,
    pub(crate) count: usize,
    ghost seated: { IsSeatAt (sends_on sender) pass },
    ghost told: { (view pass).is_told ≡ true },
    ghost bound: { ruled_capacity (sends_on sender) ≡ (view pass).bound },
    ghost is_poster: { (view pass).is_poster ≡ true },
    ghost named: { (view pass).poster ≡ poster },
    ghost counted: { length (view pass).sent ≡ count },
    ghost few: { count ≤ most_bundles },
    ghost unclosed: { is_closed (view pass).sent ≡ false },
}

/// A poster's end that has ended: what it sent. The mirror's outlets aren't all gone as long as this is there.
#[derive(Drop)]
pub struct Sent {
    pub(crate) sender: RuledSender<Mail, View, InOrder>,
    pub(crate) pass: Pass<Mail, View>,
    pub(crate) count: usize,
    pub(crate) closed: bool,
    ghost seated: { IsSeatAt (sends_on sender) pass },
    ghost is_poster: { (view pass).is_poster ≡ true },
    ghost counted: { count_bundles (view pass).sent ≡ count },
    ghost marked: { is_closed (view pass).sent ≡ closed },
}

/// The mirror's end of its mail.
#[derive(Drop)]
pub struct Inlet {
    pub(crate) receiver: RuledReceiver<Mail, View, InOrder>,
    pub(crate) pass: Pass<Mail, View>,
    pub(crate) posters: usize,
    pub(crate) marks: usize,
    ghost seated: { IsSeatAt (receives_on receiver) pass },
    ghost told: { (view pass).is_told ≡ true },
    ghost bound: { ruled_capacity (receives_on receiver) ≡ (view pass).bound },
    ghost is_mirror: { (view pass).is_mirror ≡ true },
    ghost known: { (view pass).posters ≡ posters },
    ghost counted: { count_marks (view pass).taken ≡ marks },
}
