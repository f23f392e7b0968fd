//! What may happen between the steps of a mirror.

/// Is called around each taking of a mail. The threads of all mirrors share it. It takes no runtime, so one that waits
/// counts its turns and returns.
pub trait Gate {
    /// Before this mirror, which has taken so many mails, takes the next; also where none comes.
    fn before_take(&self, mirror: usize, taken: usize);

    /// After this mirror, which had taken so many mails, took one more: a bundle once its verdict stands, a mark at once.
    fn after_take(&self, mirror: usize, taken: usize);
}

/// Does nothing.
#[derive(Clone, Copy)]
pub struct Open;

impl Gate for Open {
    fn before_take(&self, _mirror: usize, _taken: usize) {}

    fn after_take(&self, _mirror: usize, _taken: usize) {}
}
