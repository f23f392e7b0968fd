//! Who looks on while texts are answered.
use crate::answers::Answer;
use dm_repo::{Policy, Repo};
use std::alloc::Global;

/// Who sees each text before it is taken, and after it is answered, and changes nothing of it.
pub trait Observer {
    /// The repository into which the text is to be taken.
    fn before(&mut self, repo: &Repo<Global>, text: &[u8], policy: Policy);

    /// The repository that is left, once the line of the answer is written.
    fn after(&mut self, repo: &Repo<Global>, text: &[u8], policy: Policy, answer: Answer);
}
