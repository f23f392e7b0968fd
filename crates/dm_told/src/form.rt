//! In which form answers are told.
ghost use Rattle.std.specs.Prelude.{◌≡◌, IfOk};
ghost use Rattle.dm_deliver.specs.Answering.{answer_line};
ghost use Rattle.dm_told.specs.Forms.{TellsAnswer};

use crate::answer::{answer_line, text_line};
use dm_bundle::read_bundle_within;
use dm_deliver::{Answer, Form, push_answer};
use dm_named::{FaultKind, Limits};
use dm_repo::Repo;
use std::alloc::{AllocError, Global};

/// In which form answers are told.
#[derive(Clone, Copy, Debug, PartialEq, Eq)]
pub enum AnswerForm {
    /// The plain line, such as `taken 1`.
    Plain,
    /// A line of JSON, with what the answer is about. Texts are read within these limits.
    Json(Limits),
}

/// The plain line.
fn plain_line(alloc: Global, answer: Answer) -> Result<Vec<u8>, AllocError>
    ensures { IfOk result (λ line. line.items ≡ answer_line answer) }
{
    let mut line = Vec::new(alloc);
    push_answer(answer, &mut line)?;
    Ok(line)
}

/// The line of JSON.
fn json_line(
    alloc: Global,
    limits: Limits,
    repo: &Repo<Global>,
    text: &[u8],
    answer: Answer,
) -> Result<Vec<u8>, AllocError>
    ensures { IfOk result (λ line. TellsAnswer limits repo.now.patches text.now answer line.items) }
{
    match read_bundle_within(alloc, text, limits) {
        Ok(bundle) => {
            let line = answer_line(alloc, repo, &bundle, text, answer)?;
            Ok(line)
        }
        Err(fault) => {
            if fault.kind == FaultKind::NoMemory {
                return Err(AllocError);
            }
            let line = text_line(alloc, text, answer)?;
            Ok(line)
        }
    }
}

impl Form for AnswerForm {
    ghost use Rattle.dm_told.specs.Forms.{says};

    ghost says = { says };

    fn line(
        &self,
        alloc: Global,
        repo: &Repo<Global>,
        text: &[u8],
        answer: Answer,
    ) -> Result<Vec<u8>, AllocError> {
        match *self {
            AnswerForm::Plain => plain_line(alloc, answer),
            AnswerForm::Json(limits) => json_line(alloc, limits, repo, text, answer),
        }
    }
}
