//! How a text is answered.
ghost use Rattle.std.specs.Prelude.{◌≡◌, ◌++◌, ◌↔◌, OnOk, IsTrue};
ghost use Rattle.dm_deliver.specs.Answering.{IsAcceptedAnswer, answer_line};

use crate::hash_rule::HashFault;
use dm_scratch::Verdict;
use std::alloc::AllocError;
use std::fmt;

/// How a text is answered.
#[derive(Clone, Copy, Debug, PartialEq, Eq)]
pub enum Answer {
    /// By the verdict on taking it.
    Verdict(Verdict),
    /// It is a bundle whose hash the rule refuses. Nothing was taken.
    Hash(HashFault),
    /// It is a bundle with a new patch whose date Darcs can't read; the text tells it at this byte. Nothing was taken.
    Date(usize),
    /// It is a bundle that doesn't rest on the whole base with which the repository begins. Nothing was taken.
    BeforeBase,
}

impl Answer {
    /// Whether the repository has all of the bundle's patches now.
    pub fn is_accepted(&self) -> bool
        ensures { IsTrue result ↔ IsAcceptedAnswer self.now }
    {
        match self {
            Answer::Verdict(verdict) => verdict.is_accepted(),
            Answer::Hash(_) => false,
            Answer::Date(_) => false,
            Answer::BeforeBase => false,
        }
    }
}

impl fmt::Display for Answer {
    ghost use Rattle.std.specs.Prelude.{Some};
    ghost use Rattle.dm_deliver.specs.Answering.{answer_text};

    ghost output = { λ answer. Some (answer_text answer) };

    fn fmt<W: fmt::Write>(&self, f: &mut fmt::Formatter<W>) -> fmt::Result {
        match self {
            Answer::Verdict(verdict) => write!(f, "{verdict}"),
            Answer::Hash(fault) => write!(f, "malformed {} {}", fault.kind.word(), fault.at),
            Answer::Date(at) => write!(f, "malformed bad-date {at}"),
            Answer::BeforeBase => f.write_str("refused before-base"),
        }
    }
}

/// The line of an answer.
pub fn push_answer(answer: Answer, out: &mut Vec<u8>) -> Result<(), AllocError>
    ensures { OnOk result (out.new.items ≡ out.old.items ++ answer_line answer) }
{
    let line = format!(in *out.allocator(); "{answer}\n")?;
    out.extend_from_slice(line.as_bytes())?;
    Ok(())
}
