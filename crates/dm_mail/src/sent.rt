//! What a poster's end says once it has ended.
ghost use Rattle.std.specs.Prelude.{◌≡◌};
ghost use Rattle.dm_mail.specs.Mails.{is_closed, count_bundles};
ghost use Rattle.dm_mail.specs.Ends.{sent_mails};

use crate::ends::Sent;

impl Sent {
    /// How many bundles were accepted.
    pub fn count(&self) -> usize
        ensures { result ≡ count_bundles (sent_mails self.now) }
    {
        self.count
    }

    /// Whether the mark was accepted.
    pub fn closed(&self) -> bool
        ensures { result ≡ is_closed (sent_mails self.now) }
    {
        self.closed
    }
}
