//! What the passes of a mirror's channel say. No value of these types is made: they stand in contracts alone.
use crate::mail::Mail;
use std::collections::LinkedList;

/// What a poster had sent when it was settled.
pub struct Settled {
    pub poster: usize,
    pub sent: LinkedList<Mail>,
}

/// What a pass says. A poster's pass says what that poster sent. The mirror's says what was taken, how many posters
/// there are, and what each settled poster had sent, the last one settled first. Both say how many mails may wait; only
/// the first pass of a channel doesn't, until there is a poster.
pub struct View {
    pub is_poster: bool,
    pub poster: usize,
    pub sent: LinkedList<Mail>,
    pub is_mirror: bool,
    pub posters: usize,
    pub taken: LinkedList<Mail>,
    pub settled: LinkedList<Settled>,
    pub is_told: bool,
    pub bound: usize,
}
