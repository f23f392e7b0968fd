//! What a mirror does with its end.
ghost use Rattle.std.specs.Prelude.{◌≡◌, ◌≤◌, ◌∷◌, ◌++◌, [], if◌then◌else◌, ℕ, MatchResult, IsErr};
ghost use Rattle.dm_mail.specs.Mails.{is_mark};
ghost use Rattle.dm_mail.specs.World.{ShareWorld};
ghost use Rattle.dm_mail.specs.Ends.{sent_mails, sent_id, sent_poster, inlet_id, inlet_bound, outlet_of, all_taken, taken_of};
ghost use Rattle.dm_mail.specs.Ends.{SameInlet, SameTaken, IsNextOf, TakesMail, AllClosed};
ghost use mathlib.Core.List.{IsPrefix};

use crate::ends::{Inlet, Sent};
use crate::mail::{Body, Mail};
use crate::rule::{LastSettled, Received, Settling};
use std::sync::Wait;

/// No mail comes: all marks were taken, or the outlets are gone.
#[derive(Clone, Copy, PartialEq, Eq, Debug)]
pub struct Cut;

impl Inlet {
    /// Takes the mail that has waited longest, and waits as long as there is none. Once all marks were taken the answer
    /// is `Cut`, without waiting; and so it is once nothing waits and every outlet is gone, dropped or settled, of which no
    /// contract speaks.
    #[tactic(auto, using(crate::proofs::EndLemmas::received_marks, crate::proofs::EndLemmas::received_more))]
    pub fn take<R: Wait>(&mut self, rt: &R) -> Result<Mail, Cut>
        ensures same { SameInlet self.old self.new }
        ensures taken { MatchResult result
            (λ mail. IsNextOf self.old mail × TakesMail self.old mail self.new)
            (λ _. SameTaken self.old self.new) }
        ensures order { MatchResult result
            (λ mail. all_taken self.new ≡ all_taken self.old ++ mail ∷ [])
            (λ _. all_taken self.new ≡ all_taken self.old) }
        ensures all { AllClosed self.old → IsErr result }
    {
        if self.marks >= self.posters {
            return Err(Cut);
        }
        let Ok(mail) = self.receiver.recv_as::<Received, R>(rt, &mut self.pass) else {
            return Err(Cut);
        };
        self.marks += marks_of(&mail.body);
        Ok(mail)
    }
}

/// How many marks a body is.
fn marks_of(body: &Body) -> usize
    ensures few { result ≤ 1 }
    ensures count { result ≡ if is_mark body.now then 1 else 0 }
{
    match body {
        Body::Bundle(_) => 0,
        Body::Close => 1,
    }
}

/// Settles what a poster sent with what the mirror took: the mails that this inlet took from that poster are a prefix of
/// what it sent, as in a world that allowed events lead to. Both ends are of one mail, and in one hand, so the poster has
/// ended. What was taken stays.
pub fn settle<R: Wait>(rt: &R, sent: Sent, inlet: &mut Inlet)
    requires { sent_id sent ≡ outlet_of (inlet_id inlet.old) (sent_poster sent) }
    ensures same { SameInlet inlet.old inlet.new }
    ensures taken { SameTaken inlet.old inlet.new }
    ensures prefix { IsPrefix (taken_of inlet.new (sent_poster sent)) (sent_mails sent) }
    ensures world { ShareWorld (inlet_bound inlet.new) (sent_poster sent) (sent_mails sent) (taken_of inlet.new (sent_poster sent)) }
{
    let Sent { sender, pass, .. } = sent;
    let Inlet { pass: mirror, .. } = inlet;
    sender.absorb::<Settling>(mirror, pass);
    sender.learn_as::<LastSettled>(mirror);
}
