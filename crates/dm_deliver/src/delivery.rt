//! Texts that come one after the other, each taken and answered.
ghost use Rattle.std.specs.Prelude.{◌≡◌, ◌≢◌, ◌⊎◌, ◌<◌, ◌^◌, ◌↔◌, All, length, IfOk, IfErr, IfSome, IfNone, OnOk, IsTrue};
ghost use Rattle.dm_journal.specs.declared.device.DeviceError.TheVariants.{Failed};
ghost use Rattle.dm_journal.specs.declared.fault.WriteError.TheVariants.{Device as WritingDevice, TooLong, Full};
ghost use Rattle.dm_journal.specs.Device.{LeavesOnly};
ghost use Rattle.dm_journal.specs.Ready.{IsBeside, IsFailure};
ghost use Rattle.dm_store.specs.Kinds.{kinds_in};
ghost use Rattle.dm_store.specs.Keeping.{CrashesKeep, IsStored, KeepsRepo, kept_as, kept_in};
ghost use Rattle.dm_deliver.specs.declared.answers.Answer.{Answer as Reply};
ghost use Rattle.dm_deliver.specs.declared.fault.AnswerError.TheVariants.{Store as OfStore, NoMemory as NoRoom, Write as Unwritten};
ghost use Rattle.dm_deliver.specs.Answering.{Answers, BreaksOff, IsTold, PassesRules, WasAnswered, IsAcceptedAnswer, IsOfStore, LeavesUnanswered, KeepsEither, KeepsAnswered};
ghost use Rattle.dm_deliver.specs.Delivering.{Delivers, DeliversUntil, EndsStore, KeepsSome};
ghost use Rattle.dm_deliver.specs.Outputs.{output};

use crate::answers::Answer;
use crate::base_rule::text_is_before_base;
use crate::bundle_rule::BundleRule;
use crate::date_rule::date_fault_within;
use crate::fault::{AnswerError, DeliverError};
use crate::form::Form;
use crate::hash_rule::hash_fault_within;
use crate::line::write_line;
use crate::observer::Observer;
use crate::source::Source;
use crate::watched::Watched;
use dm_journal::{Device, WriteError};
use dm_named::{Kinds, Limits};
use dm_repo::{Policy, Refusal, Repo};
use dm_scratch::Verdict;
use dm_store::Store;
use std::alloc::{AllocError, Global};
use std::io::Write;

// How a text is answered that a rule refuses, and so isn't taken. `None` where no rule does.
fn refusal_of_rules(
    alloc: Global,
    repo: &Repo<Global>,
    base: usize,
    text: &[u8],
    kinds: Kinds,
    rule: BundleRule,
) -> Result<Option<Answer>, AllocError>
    ensures some { IfOk result (λ found. IfSome found (λ answer. (policy : Policy)
        → Answers kinds (kept_as base repo.now.patches) text.now policy rule answer (kept_as base repo.now.patches))) }
    ensures none { IfOk result (λ found. IfNone found (PassesRules kinds (kept_as base repo.now.patches) rule text.now)) }
{
    let limits = Limits::STANDARD.with_kinds(kinds);
    if let Some(fault) = hash_fault_within(alloc, text, limits, rule.hash)? {
        return Ok(Some(Answer::Hash(fault)));
    }
    if let Some(at) = date_fault_within(alloc, text, limits, rule.date)? {
        return Ok(Some(Answer::Date(at)));
    }
    if text_is_before_base(alloc, repo, base, text, kinds)? {
        return Ok(Some(Answer::BeforeBase));
    }
    Ok(None)
}

// Takes a text into a store, where no rule refuses it.
fn take_text<D: Device>(
    alloc: Global,
    store: &mut Store<D>,
    text: &[u8],
    policy: Policy,
    rule: BundleRule,
) -> Result<Answer, AnswerError>
    requires { IsStored D.seen D.may_leave D.file_may_leave store.old }

    ensures answers { IfOk result (λ answer. Answers (kinds_in store.old) (kept_in store.old) text.now policy rule answer (kept_in store.new)) }
    ensures no_memory { IfErr result (λ e. e ≡ NoRoom
        → (kept_in store.new ≡ kept_in store.old) ⊎ ((answer : Reply) × Answers (kinds_in store.old) (kept_in store.old) text.now policy rule answer (kept_in store.new))) }
    ensures only { IfErr result (λ e. e ≢ Unwritten) }
    ensures kinds { kinds_in store.new ≡ kinds_in store.old }
    ensures base { store.new.base ≡ store.old.base }
    ensures stored { OnOk result (IsStored D.seen D.may_leave D.file_may_leave store.new) }
    ensures stored_err { IfErr result (λ e. ¬ IsOfStore e → IsStored D.seen D.may_leave D.file_may_leave store.new) }
    ensures kept { OnOk result (CrashesKeep (kinds_in store.new) D.may_leave store.new.journal.device (kept_in store.new)) }
    ensures kept_err { IfErr result (λ e. ¬ IsOfStore e → CrashesKeep (kinds_in store.new) D.may_leave store.new.journal.device (kept_in store.new)) }
    ensures any_moment { LeavesOnly D.moment D.left_since store.old.journal.device store.new.journal.device
        (KeepsAnswered (kinds_in store.old) (kept_in store.old) text.now policy rule) }
    ensures either { OnOk result (LeavesOnly D.moment D.left_since store.old.journal.device store.new.journal.device
        (KeepsEither (kinds_in store.old) (kept_in store.old) (kept_in store.new))) }
    ensures failed { IfErr result (λ e. e ≡ OfStore (WritingDevice Failed) → D.faults store.old.journal.device < D.faults store.new.journal.device) }
    ensures not_too_long { IfErr result (λ e. e ≡ OfStore TooLong → ⊥) }
    ensures full { IfErr result (λ e. e ≡ OfStore Full → 2 ^ 62 < length (D.seen store.old.journal.device)) }
{
    if let Some(answer) = refusal_of_rules(
        alloc,
        store.repo(),
        store.base(),
        text,
        store.kinds(),
        rule,
    )? {
        return Ok(answer);
    }
    let verdict = store.take(alloc, text, policy)?;
    if verdict == Verdict::Refused(Refusal::NoMemory) {
        return Err(AnswerError::NoMemory);
    }
    Ok(Answer::Verdict(verdict))
}

// Writes the line of an answer to a text, and flushes the writer. The caller has shown that each crash leaves a file that keeps what
// the answer says.
fn tell<D: Device, F: Form, W: Write>(
    alloc: Global,
    store: &Store<D>,
    form: &F,
    text: &[u8],
    reply: Answer,
    writer: &mut Watched<W>,
) -> Result<(), AnswerError>
    requires answered { WasAnswered (kinds_in store.now) text.now reply (kept_in store.now) }
    requires kept { CrashesKeep (kinds_in store.now) D.may_leave store.now.journal.device (kept_in store.now) }
    ensures told { OnOk result (IsTold (F.says form.now) store.now.repo.patches text.now reply (output W.contents writer.old) (output W.contents writer.new)) }
    ensures broken { IfErr result (λ e. BreaksOff (F.says form.now) e store.now.repo.patches text.now reply (output W.contents writer.old) (output W.contents writer.new)) }
{
    let line = form.line(alloc, store.repo(), text, reply)?;
    write_line(&line, writer)
}

/// Takes a text into a store, and then writes the line of its answer and flushes the writer: a byte of the line is written only
/// once each crash leaves a file that keeps what was taken. A bundle whose hash or date the rule refuses is answered by that, and not
/// taken; nor is one that doesn't rest on the whole base with which the repository begins. A refused bundle is answered too,
/// but not one for which there was no memory: that says nothing of the bundle.
///
/// After [`AnswerError::Store`] the file has the text or not: open it again. After the other errors the text was taken, whether
/// or not its line came through, and the store can go on.
pub fn answer<D: Device, F: Form, W: Write>(
    alloc: Global,
    store: &mut Store<D>,
    text: &[u8],
    policy: Policy,
    rule: BundleRule,
    form: &F,
    writer: &mut Watched<W>,
) -> Result<Answer, AnswerError>
    requires { IsStored D.seen D.may_leave D.file_may_leave store.old }

    ensures answers { IfOk result (λ answer. Answers (kinds_in store.old) (kept_in store.old) text.now policy rule answer (kept_in store.new)) }

    // The line is written, and then flushed. There is no answer only for a cause: `Write` where a call of the writer failed.
    ensures told { IfOk result (λ answer. IsTold (F.says form.now) store.new.repo.patches text.now answer (output W.contents writer.old) (output W.contents writer.new)) }
    ensures unanswered { IfErr result (λ e. LeavesUnanswered (F.says form.now) e (kinds_in store.old) (kept_in store.old) text.now policy rule (kept_in store.new)
        (output W.contents writer.old) (output W.contents writer.new)) }

    ensures kinds { kinds_in store.new ≡ kinds_in store.old }
    ensures base { store.new.base ≡ store.old.base }
    ensures stored { OnOk result (IsStored D.seen D.may_leave D.file_may_leave store.new) }
    ensures stored_err { IfErr result (λ e. ¬ IsOfStore e → IsStored D.seen D.may_leave D.file_may_leave store.new) }
    ensures kept { OnOk result (CrashesKeep (kinds_in store.new) D.may_leave store.new.journal.device (kept_in store.new)) }
    ensures kept_err { IfErr result (λ e. ¬ IsOfStore e → CrashesKeep (kinds_in store.new) D.may_leave store.new.journal.device (kept_in store.new)) }

    // A crash at any moment of the call leaves a file that keeps the repository from before it, or the one that the text leaves.
    ensures any_moment { LeavesOnly D.moment D.left_since store.old.journal.device store.new.journal.device
        (KeepsAnswered (kinds_in store.old) (kept_in store.old) text.now policy rule) }
    ensures either { OnOk result (LeavesOnly D.moment D.left_since store.old.journal.device store.new.journal.device
        (KeepsEither (kinds_in store.old) (kept_in store.old) (kept_in store.new))) }

    // It doesn't give up by itself.
    ensures failed { IfErr result (λ e. e ≡ OfStore (WritingDevice Failed) → D.faults store.old.journal.device < D.faults store.new.journal.device) }
    ensures not_too_long { IfErr result (λ e. e ≡ OfStore TooLong → ⊥) }
    ensures full { IfErr result (λ e. e ≡ OfStore Full → 2 ^ 62 < length (D.seen store.old.journal.device)) }
{
    let reply = take_text(alloc, store, text, policy, rule)?;
    tell(alloc, store, form, text, reply, writer)?;
    Ok(reply)
}

// Whether a checkpoint is due before the next text. What was there when the first one came is taken again at each opening.
fn is_due<D: Device>(store: &Store<D>, first: bool) -> bool {
    if first {
        return store.wants_checkpoint();
    }
    store.needs_checkpoint()
}

// Makes a checkpoint where one is due, if it may. Returns whether the next one may be tried: not where the repository fits
// none, or its new file could not be made. Then the store goes on without.
fn settle<D: Device>(
    alloc: Global,
    store: &mut Store<D>,
    may: bool,
    due: bool,
) -> Result<bool, WriteError>
    requires { IsStored D.seen D.may_leave D.file_may_leave store.old }
    ensures same { store.new.repo ≡ store.old.repo }
    ensures kinds { kinds_in store.new ≡ kinds_in store.old }
    ensures base { store.new.base ≡ store.old.base }
    ensures stored { OnOk result (IsStored D.seen D.may_leave D.file_may_leave store.new) }
    ensures any_moment { LeavesOnly D.moment D.left_since store.old.journal.device store.new.journal.device (λ file. KeepsRepo (kinds_in store.old) file (kept_in store.old)) }
    ensures failed { IfErr result (λ e. IsFailure e → D.faults store.old.journal.device < D.faults store.new.journal.device) }
    ensures kind { IfErr result (λ e. (¬ IsBeside e) × ((e ≢ TooLong) × (e ≢ Full))) }
{
    if !may || !due {
        return Ok(may);
    }
    match store.checkpoint(alloc) {
        Ok(done) => Ok(done),
        Err(WriteError::Beside(_)) => Ok(false),
        Err(error) => Err(error),
    }
}

/// Takes the texts of a source into a store, in turn, and answers each by a line of this form once it stands on the disk. A bundle that
/// is refused is answered, and the next is taken all the same. An observer looks on. Returns whether all were accepted.
///
/// Where a checkpoint is due, it makes one before a text is taken: by [`Store::wants_checkpoint`] before the first, by
/// [`Store::needs_checkpoint`] before the others. Where its new file can't be made, it goes on without.
///
/// It stops at the first error. What was answered until then stands; after [`AnswerError::Store`] and
/// [`DeliverError::Checkpoint`] open the file again.
pub fn deliver<D: Device, S: Source, O: Observer, F: Form, W: Write>(
    alloc: Global,
    store: &mut Store<D>,
    source: &mut S,
    policy: Policy,
    rule: BundleRule,
    observer: &mut O,
    form: &F,
    writer: &mut Watched<W>,
) -> Result<bool, DeliverError<S::Error>>
    requires { IsStored D.seen D.may_leave D.file_may_leave store.old }

    // All texts came, were answered in turn, and their lines written; and the result says whether all were accepted.
    ensures done { OnOk result (S.is_done source.new) }
    ensures delivers { IfOk result (λ all. (d : Delivers D.moment D.left_since (F.says form.now) (λ texts. S.gave source.old texts source.new) policy rule store.old store.new
        (output W.contents writer.old) (output W.contents writer.new)) × (IsTrue all ↔ All IsAcceptedAnswer d.answers)) }

    // By an error, all texts that came, or all but the last; and it doesn't give up a checkpoint by itself.
    ensures delivers_until { IfErr result (λ e. DeliversUntil D.seen D.moment D.left_since D.faults (F.says form.now) (λ texts. S.gave source.old texts source.new) policy
        rule e store.old store.new (output W.contents writer.old) (output W.contents writer.new)) }

    // Each crash from now on leaves a file that keeps what was taken.
    ensures kinds { kinds_in store.new ≡ kinds_in store.old }
    ensures base { store.new.base ≡ store.old.base }
    ensures stored { OnOk result (IsStored D.seen D.may_leave D.file_may_leave store.new) }
    ensures stored_err { IfErr result (λ e. ¬ EndsStore e → IsStored D.seen D.may_leave D.file_may_leave store.new) }
    ensures kept { OnOk result (CrashesKeep (kinds_in store.new) D.may_leave store.new.journal.device (kept_in store.new)) }
    ensures kept_err { IfErr result (λ e. ¬ EndsStore e → CrashesKeep (kinds_in store.new) D.may_leave store.new.journal.device (kept_in store.new)) }

    // A crash at any moment of the call leaves a file that keeps the repository after the first of the texts, some or all.
    ensures any_moment { LeavesOnly D.moment D.left_since store.old.journal.device store.new.journal.device
        (KeepsSome (λ texts. S.gave source.old texts source.new) (kinds_in store.old) (kept_in store.old) policy rule) }
{
    let mut all_accepted = true;
    let mut may_settle = true;
    let mut is_first = true;
    loop {
        match source.next_text() {
            Ok(Some(text)) => {
                let due = is_due(store, is_first);
                may_settle = settle(alloc, store, may_settle, due)?;
                is_first = false;
                let bytes = text.as_slice();
                observer.before(store.repo(), bytes, policy);
                let reply = answer(alloc, store, bytes, policy, rule, form, writer)?;
                observer.after(store.repo(), bytes, policy, reply);
                all_accepted = all_accepted && reply.is_accepted();
            }
            Ok(None) => return Ok(all_accepted),
            Err(error) => return Err(DeliverError::Source(error)),
        }
    }
}
