//! Laws of the definitions alone. A call of them does nothing.

ghost use Rattle.dm_mail.specs.Laws.{IsDelivered, SentIsNumbered, SentEndsAtMark, QueueIsBounded, AllTakenIsAllSent, ClosedIsAllSent};

/// In every world that allowed events lead to: the mails of each poster, those taken and then those that wait, are what
/// it sent; they have the numbers 0, 1, ..; its mark is the last of them; and no more mails wait than the bound.
pub fn world()
    ensures delivered { IsDelivered }
    ensures numbered { SentIsNumbered }
    ensures mark_last { SentEndsAtMark }
    ensures bounded { QueueIsBounded }
{}

/// Where what was taken from each poster is a prefix of what it sent, all of it was taken from a poster whose mark was
/// taken, and from every poster where as many mails were taken as all posters sent.
pub fn whole()
    ensures counted { AllTakenIsAllSent }
    ensures closed { ClosedIsAllSent }
{}
