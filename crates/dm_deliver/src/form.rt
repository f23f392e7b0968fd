//! How answers are written.
ghost use Rattle.std.specs.Prelude.{List, ℕ, IfOk};
ghost use Rattle.dm_named.specs.Patches.{Patch};
ghost use Rattle.dm_deliver.specs.declared.answers.Answer.{Answer as Reply};

use crate::answers::Answer;
use dm_repo::Repo;
use std::alloc::{AllocError, Global};

/// A form in which answers are written, each as a line of its own: for people, or for programs.
pub trait Form {
    /// The last one is a line that says how a text was answered, where these patches are left.
    ghost says: { Self → List Patch → List ℕ → Reply → List ℕ → Type 0 };

    /// The line of an answer to a text, with its newline. The repository is the one that the answer left.
    fn line(
        &self,
        alloc: Global,
        repo: &Repo<Global>,
        text: &[u8],
        answer: Answer,
    ) -> Result<Vec<u8>, AllocError>
        ensures { IfOk result (λ line. says self.now repo.now.patches text.now answer line.items) };
}
