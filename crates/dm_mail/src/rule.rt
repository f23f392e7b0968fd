//! The rule of a mirror's channel, and the steps that posters and mirror take in it.
ghost use Rattle.dm_mail.specs.Rule.{IsInOrder, first_view, spent_view, view_after_split, poster_view, view_after_join, IsAccepted, IsReceived, IsLastSettled};

use crate::mail::Mail;
use crate::view::View;
use crossbeam_channel::protocol::{Join, Lesson, Outcome, Protocol, Split};
use std::marker::{Brand, PhantomData};

/// The mails that wait, what the posters' passes say and what the mirror's pass says are always a world that allowed
/// events lead to.
pub struct InOrder;

impl Protocol<Mail, View> for InOrder {
    ghost holds = { IsInOrder };

    ghost first = { first_view };
}

/// Names how many mails may wait. A call that opens a mail picks it.
pub trait Bound {
    ghost use Rattle.std.specs.Prelude.{ℕ};

    ghost bound: { ℕ };
}

impl Bound for Brand {
    ghost bound = { 0 };
}

/// A pass is split off for the next poster. Both passes then say the bound.
pub struct ForPoster<B>(PhantomData<B>);

impl<B: Bound> Split<View> for ForPoster<B> {
    ghost left = { view_after_split B.bound };

    ghost right = { poster_view B.bound };
}

/// The pass of a poster that has ended is joined into the mirror's.
pub struct Settling;

impl Join<View> for Settling {
    ghost both = { view_after_join };

    ghost spent = { spent_view };
}

/// A mail of the pass's poster is accepted.
pub struct Accepted;

impl Outcome<Mail, View> for Accepted {
    ghost then = { IsAccepted };
}

impl Lesson<Mail, View> for Accepted {
    ghost use Rattle.std.specs.Prelude.{⊤};

    ghost fact = { λ view waiting. ⊤ };
}

/// The mirror receives a mail.
pub struct Received;

impl Outcome<Mail, View> for Received {
    ghost then = { IsReceived };
}

impl Lesson<Mail, View> for Received {
    ghost use Rattle.std.specs.Prelude.{⊤};

    ghost fact = { λ view waiting. ⊤ };
}

/// What the poster that was settled last sent, and what was taken from it, are those of one world.
pub struct LastSettled;

impl Lesson<Mail, View> for LastSettled {
    ghost fact = { λ view waiting. IsLastSettled view };
}
