//! What a poster does with its end.
ghost use Rattle.std.specs.Prelude.{◌≡◌, ◌∷◌, ◌++◌, [], ◌<◌, length, List, ℕ, MatchResult, OnOk, OnErr, IfErr};
ghost use Rattle.dm_mail.specs.Limits.{most_bundles};
ghost use Rattle.dm_mail.specs.Mails.{bundle, mark};
ghost use Rattle.dm_mail.specs.Faults.{IsReason};
ghost use Rattle.dm_mail.specs.Ends.{outlet_mails, sent_mails, next_mail_of, SameOutlet, EndsAs};

use crate::ends::{Outlet, Sent};
use crate::mail::{Body, Mail, Text};
use crate::rule::Accepted;
use std::sync::Wait;

/// The most bundles that a poster sends to a mirror.
pub const MOST_BUNDLES: usize = 1000;

/// Why a bundle wasn't sent.
#[derive(Clone, Copy, PartialEq, Eq, Debug)]
pub enum Why {
    /// As many bundles as a poster may send were accepted before.
    Limit,
    /// The inlet is gone.
    Gone,
}

/// A text that wasn't sent.
#[derive(Drop)]
pub struct Unsent {
    pub text: Text,
    pub why: Why,
}

impl Outlet {
    /// Sends a bundle, and waits as long as there is no room. Where the inlet is gone, of which no contract speaks, the
    /// text comes back as it was.
    pub fn send<R: Wait>(&mut self, rt: &R, text: Text) -> Result<(), Unsent>
        ensures same { SameOutlet self.old self.new }
        ensures sent { OnOk result (outlet_mails self.new ≡ outlet_mails self.old ++ next_mail_of self.old (bundle text) ∷ []) }
        ensures few { OnOk result (length (outlet_mails self.old) < most_bundles) }
        ensures unsent { OnErr result (outlet_mails self.new ≡ outlet_mails self.old) }
        ensures text { IfErr result (λ e. e.text ≡ text) }
        ensures why { IfErr result (λ e. IsReason (length (outlet_mails self.old)) e.why) }
    {
        if self.count >= MOST_BUNDLES {
            return Err(Unsent {
                text,
                why: Why::Limit,
            });
        }
        let mail = Mail {
            poster: self.poster,
            number: self.count,
            body: Body::Bundle(text),
        };
        match self.sender.send_as::<Accepted, R>(rt, &mut self.pass, mail) {
            Ok(()) => {
                self.count += 1;
                Ok(())
            }
            Err(error) => Err(Unsent {
                text: text_of(error.into_inner()),
                why: Why::Gone,
            }),
        }
    }

    /// Sends the closing mark, and waits as long as there is no room. The outlet comes back where the inlet is gone, of
    /// which no contract speaks.
    pub fn close<R: Wait>(self, rt: &R) -> Result<Sent, Outlet>
        ensures end { MatchResult result (EndsAs self) (SameOutlet self) }
        ensures mails { MatchResult result
            (λ sent. sent_mails sent ≡ outlet_mails self ++ next_mail_of self mark ∷ [])
            (λ outlet. outlet_mails outlet ≡ outlet_mails self) }
    {
        let Outlet {
            sender,
            mut pass,
            poster,
            count,
        } = self;
        let mail = Mail {
            poster,
            number: count,
            body: Body::Close,
        };
        match sender.send_as::<Accepted, R>(rt, &mut pass, mail) {
            Ok(()) => Ok(Sent {
                sender,
                pass,
                count,
                closed: true,
            }),
            Err(_) => Err(Outlet {
                sender,
                pass,
                poster,
                count,
            }),
        }
    }

    /// Ends without a mark.
    pub fn leave(self) -> Sent
        ensures end { EndsAs self result }
        ensures mails { sent_mails result ≡ outlet_mails self }
    {
        let Outlet {
            sender,
            pass,
            count,
            ..
        } = self;
        Sent {
            sender,
            pass,
            count,
            closed: false,
        }
    }
}

/// The text of a mail that carries a bundle.
fn text_of(mail: Mail) -> Text
    requires { (text : List ℕ) × (mail.body ≡ bundle text) }
    ensures { mail.body ≡ bundle result }
{
    match mail.body {
        Body::Bundle(text) => text,
        Body::Close => unreachable!(),
    }
}
