//! Answers as lines of JSON.
ghost use Rattle.std.specs.Prelude.{◌≡◌, List, ℕ, [], IfOk, codes};
ghost use Rattle.dm_named.specs.Patches.{Patch};
ghost use Rattle.dm_bundle.specs.Bundles.{Contents};
ghost use Rattle.dm_deliver.specs.declared.answers.Answer.TheVariants as answers;
ghost use Rattle.dm_log.specs.JsonObjects.{members_in};
ghost use Rattle.dm_scratch.specs.declared.verdict.Verdict.TheVariants as verdicts;
ghost use Rattle.dm_told.specs.Told.{Tells, TellsLine, TellsOwn, TellsText, TellsVerdict, of_verdict, refusal_word, refused, with_hashes, with_refusal};

use crate::fault::fault_object;
use crate::line::line_of;
use crate::named::{hashes_of, of_verdict};
use crate::refusal::{put_refusal, refused, word_of};
use crate::taken::{taken_object, taken_some};
use dm_bundle::Bundle;
use dm_deliver::Answer;
use dm_log::Object;
use dm_named::ReadFault;
use dm_repo::{Refusal, Repo};
use dm_scratch::Verdict;
use std::alloc::{AllocError, Global};

/// A bundle that isn't taken.
fn refused_object(
    alloc: Global,
    repo: &Repo<Global>,
    bundle: &Bundle<Global>,
    refusal: Refusal,
) -> Result<Object, AllocError>
    ensures { IfOk result (λ o. members_in o ≡ with_refusal repo.now.patches bundle.now refusal
        (refused (refusal_word refusal) (answers.Verdict (verdicts.Refused refusal)))) }
{
    let answer = Answer::Verdict(Verdict::Refused(refusal));
    let mut object = refused(alloc, word_of(refusal), answer)?;
    put_refusal(alloc, &mut object, repo, bundle, refusal)?;
    Ok(object)
}

/// A bundle of which the repository has every new patch already.
fn nothing_new(alloc: Global) -> Result<Object, AllocError>
    ensures { IfOk result (λ o. members_in o ≡ with_hashes (codes "hashes") [] (of_verdict (codes "nothing-new") (answers.Verdict verdicts.NothingNew))) }
{
    let mut object = of_verdict(alloc, "nothing-new", Answer::Verdict(Verdict::NothingNew))?;
    object.put("hashes", hashes_of(alloc, &[])?)?;
    Ok(object)
}

/// A text that is no bundle.
fn malformed(alloc: Global, text: &[u8], fault: ReadFault) -> Result<Object, AllocError>
    ensures { (repo : List Patch) (b : Contents) → IfOk result (λ o. TellsVerdict repo b text.now (verdicts.Malformed fault) (members_in o)) }
{
    let answer = Answer::Verdict(Verdict::Malformed(fault));
    fault_object(alloc, fault.kind.word(), text, fault.at, answer)
}

/// A verdict on a text.
fn verdict_object(
    alloc: Global,
    repo: &Repo<Global>,
    bundle: &Bundle<Global>,
    text: &[u8],
    verdict: Verdict,
) -> Result<Object, AllocError>
    ensures { IfOk result (λ o. TellsVerdict repo.now.patches bundle.now text.now verdict (members_in o)) }
{
    match verdict {
        Verdict::Taken(count) => taken_object(
            alloc,
            "taken",
            repo,
            count,
            Answer::Verdict(verdict),
        ),
        Verdict::TakenSome(count, skipped) => taken_some(alloc, repo, bundle, count, skipped),
        Verdict::NothingNew => nothing_new(alloc),
        Verdict::Malformed(fault) => malformed(alloc, text, fault),
        Verdict::Refused(refusal) => refused_object(alloc, repo, bundle, refusal),
    }
}

/// An answer to a text.
fn answer_object(
    alloc: Global,
    repo: &Repo<Global>,
    bundle: &Bundle<Global>,
    text: &[u8],
    answer: Answer,
) -> Result<Object, AllocError>
    ensures { IfOk result (λ o. Tells repo.now.patches bundle.now text.now answer (members_in o)) }
{
    match answer {
        Answer::Verdict(verdict) => verdict_object(alloc, repo, bundle, text, verdict),
        Answer::Hash(fault) => fault_object(alloc, fault.kind.word(), text, fault.at, answer),
        Answer::Date(at) => fault_object(alloc, "bad-date", text, at, answer),
        Answer::BeforeBase => refused(alloc, "before-base", answer),
    }
}

/// The line of an answer to a text, in the repository that it left. `bundle` is the one that the text stands for; of a text that is
/// none, any will do.
pub fn answer_line(
    alloc: Global,
    repo: &Repo<Global>,
    bundle: &Bundle<Global>,
    text: &[u8],
    answer: Answer,
) -> Result<Vec<u8>, AllocError>
    ensures { IfOk result (λ line. TellsLine repo.now.patches bundle.now text.now answer line.items) }
{
    let object = answer_object(alloc, repo, bundle, text, answer)?;
    let line = line_of(alloc, object)?;
    Ok(line)
}

/// The line of an answer to a text that was taken into no repository.
pub fn text_line(alloc: Global, text: &[u8], answer: Answer) -> Result<Vec<u8>, AllocError>
    ensures { IfOk result (λ line. TellsText text.now answer line.items) }
{
    let repo = Repo::new(alloc);
    let nothing = Bundle::without_doubles(Vec::new(alloc), Vec::new(alloc));
    answer_line(alloc, &repo, &nothing, text, answer)
}

/// The line of an answer that is about the repository alone.
pub fn own_line(alloc: Global, repo: &Repo<Global>, answer: Answer) -> Result<Vec<u8>, AllocError>
    ensures { IfOk result (λ line. TellsOwn repo.now.patches answer line.items) }
{
    let nothing = Bundle::without_doubles(Vec::new(alloc), Vec::new(alloc));
    answer_line(alloc, repo, &nothing, &[], answer)
}
