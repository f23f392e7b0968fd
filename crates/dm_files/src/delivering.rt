//! Bundles that are taken one after the other, into a mirror or a repository in memory: `dm apply --mirror`.
ghost use Rattle.std.specs.Prelude.{◌≡◌, ◌↔◌, [], All, List, ℕ, false, true, Ok, IfOk, IfErr, IsTrue, OnOk};
ghost use Rattle.dm_journal.specs.declared.fault.WriteError.{WriteError as WriteFault};
ghost use Rattle.dm_journal.specs.Device.{LeavesOnly};
ghost use Rattle.dm_disk.specs.States.{seen, may_leave, file_may_leave, moment, left_since};
ghost use Rattle.dm_store.specs.Keeping.{CrashesKeep, IsStored, KeepsRepo, kept_in};
ghost use Rattle.dm_store.specs.Kinds.{kinds_in};
ghost use Rattle.dm_deliver.specs.declared.fault.AnswerError.TheVariants.{Store as OfStore};
ghost use Rattle.dm_deliver.specs.Answering.{IsAcceptedAnswer, IsOfStore};
ghost use Rattle.dm_deliver.specs.Delivering.{Delivers, KeepsSome};
ghost use Rattle.dm_deliver.specs.Outputs.{output};
ghost use Rattle.dm_told.specs.Forms.{says};
ghost use Rattle.dm_files.specs.declared.delivering.Stop.TheVariants.{Mirror};
ghost use Rattle.dm_files.specs.Bundles.{Reads, names_in};
ghost use Rattle.dm_files.specs.Mirrors.{AnswersAll, AnswersSome, IsApplied, IsAppliedTo, AnyTexts, DeliversBy, LeavesAnswered, MayGoOn};
ghost use Rattle.dm_files.specs.Named.{CameAsNamed, CameAtMost, form_for, rule_for};

use crate::beginning::{open_mirror, rehearse_mirror, rehearse_start};
use crate::bundles::Bundles;
use crate::files::Files;
use crate::input::INPUT;
use crate::listing::Listing;
use crate::mirror::{blame, say_lost_rights};
use crate::outcome::Outcome;
use crate::word_fault::WordFault;
use crate::words::{kinds_of, policy_of, refuse_kinds};
use dm_commands::{ToolFault, push_repo, write_text};
use dm_deliver::{
    AnswerError, BundleRule, DateRule, DeliverError, Framed, HashRule, Watched, deliver,
};
use dm_disk::DiskFile;
use dm_journal::{Device, WriteError};
use dm_named::{Kinds, Limits};
use dm_remarks::{Colour, Reading, Watcher};
use dm_repo::{Policy, Repo};
use dm_store::Store;
use dm_told::AnswerForm;
use dm_words::Apply;
use std::alloc::Global;
use std::io::{self, Write};
use std::rt::Runtime;

/// Why not all was taken.
enum Stop<'a> {
    /// The mirror failed, and nobody knows whether it has the last bundle.
    Mirror(WriteError),
    /// Something else did, and the mirror can go on.
    Beside(WordFault<'a>),
}

impl<'a> Stop<'a> {
    fn of_answer(fault: AnswerError) -> Stop<'a>
        ensures goes_on { MayGoOn result → ¬ IsOfStore fault }
        ensures mirror { (why : WriteFault) → result ≡ Mirror why → fault ≡ OfStore why }
    {
        match fault {
            AnswerError::Store(fault) => Stop::Mirror(fault),
            AnswerError::NoMemory => Stop::Beside(WordFault::Tool(ToolFault::NoMemory)),
            AnswerError::Write => Stop::Beside(WordFault::Tool(ToolFault::Write)),
        }
    }
}

/// What is asked of a bundle where no mirror is: that its hash is right, if the words ask for it.
const ANY: BundleRule = BundleRule {
    hash: HashRule::Any,
    date: DateRule::Any,
};

/// What is asked of a bundle for a mirror, besides: that darcs can take it too.
const FIT_FOR_DARCS: BundleRule = BundleRule {
    hash: HashRule::NotWrong,
    date: DateRule::Readable,
};

/// What is asked of a bundle: besides, that its hash is right, where that is wanted.
fn rule_of(wants_hash: bool, otherwise: BundleRule) -> BundleRule
    ensures { result ≡ rule_for wants_hash otherwise }
{
    if wants_hash {
        return BundleRule {
            hash: HashRule::Right,
            ..otherwise
        };
    }
    otherwise
}

/// Takes each of these bundles in turn, and answers each.
fn take_named<'a, D: Device, F: Files, W: Write>(
    alloc: Global,
    files: &F,
    names: &[&'a str],
    store: &mut Store<D>,
    policy: Policy,
    rule: BundleRule,
    watcher: &mut Watcher<'_, 'a>,
    form: AnswerForm,
    writer: &mut Watched<W>,
) -> Result<bool, Stop<'a>>
    requires { IsStored D.seen D.may_leave D.file_may_leave store.old }
    // The texts came from the files of these names, in their order; each was answered in turn, and a line written that says so.
    ensures delivers { IfOk result (λ all. (d : Delivers D.moment D.left_since (says form) (λ texts. Reads (F.had files.now) (names_in names.now) texts []) policy rule store.old store.new
        (output W.contents writer.old) (output W.contents writer.new)) × (IsTrue all ↔ All IsAcceptedAnswer d.answers)) }
    ensures delivers_by { IfErr result (λ stop. DeliversBy D.seen D.moment D.left_since D.faults (says form)
        (λ texts. (left : List (List ℕ)) × Reads (F.had files.now) (names_in names.now) texts left) policy rule stop store.old store.new (output W.contents writer.old) (output W.contents writer.new)) }
    ensures kinds { kinds_in store.new ≡ kinds_in store.old }
    ensures stored { OnOk result (IsStored D.seen D.may_leave D.file_may_leave store.new) }
    ensures stored_err { IfErr result (λ e. MayGoOn e → IsStored D.seen D.may_leave D.file_may_leave store.new) }
    ensures any_moment { LeavesOnly D.moment D.left_since store.old.journal.device store.new.journal.device
        (KeepsSome (λ texts. (left : List (List ℕ)) × Reads (F.had files.now) (names_in names.now) texts left) (kinds_in store.old) (kept_in store.old) policy rule) }
{
    let mut source = Bundles::new(files, names);
    match deliver(
        alloc,
        store,
        &mut source,
        policy,
        rule,
        watcher,
        &form,
        writer,
    ) {
        Ok(all_accepted) => Ok(all_accepted),
        Err(DeliverError::Source(fault)) => Err(Stop::Beside(fault)),
        Err(DeliverError::Answer(fault)) => Err(Stop::of_answer(fault)),
        Err(DeliverError::Checkpoint(fault)) => Err(Stop::Mirror(fault)),
    }
}

/// Takes the bundles that come one after the other on standard input.
fn take_stream<'a, D: Device, W: Write>(
    rt: &HostRuntime,
    store: &mut Store<D>,
    policy: Policy,
    rule: BundleRule,
    watcher: &mut Watcher<'_, 'a>,
    form: AnswerForm,
    writer: &mut Watched<W>,
) -> Result<bool, Stop<'a>>
    requires { IsStored D.seen D.may_leave D.file_may_leave store.old }
    // The texts that came were each answered in turn, and their lines written.
    ensures delivers { IfOk result (λ all. (d : Delivers D.moment D.left_since (says form) AnyTexts policy rule store.old store.new
        (output W.contents writer.old) (output W.contents writer.new)) × (IsTrue all ↔ All IsAcceptedAnswer d.answers)) }
    ensures delivers_by { IfErr result (λ stop. DeliversBy D.seen D.moment D.left_since D.faults (says form) AnyTexts policy rule stop store.old store.new
        (output W.contents writer.old) (output W.contents writer.new)) }
    ensures kinds { kinds_in store.new ≡ kinds_in store.old }
    ensures stored { OnOk result (IsStored D.seen D.may_leave D.file_may_leave store.new) }
    ensures stored_err { IfErr result (λ e. MayGoOn e → IsStored D.seen D.may_leave D.file_may_leave store.new) }
    ensures any_moment { LeavesOnly D.moment D.left_since store.old.journal.device store.new.journal.device
        (KeepsSome AnyTexts (kinds_in store.old) (kept_in store.old) policy rule) }
{
    let mut source = Framed::new(rt.alloc(), rt.reader());
    match deliver(
        rt.alloc(),
        store,
        &mut source,
        policy,
        rule,
        watcher,
        &form,
        writer,
    ) {
        Ok(all_accepted) => Ok(all_accepted),
        Err(DeliverError::Source(fault)) => Err(Stop::Beside(WordFault::of_frame(fault))),
        Err(DeliverError::Answer(fault)) => Err(Stop::of_answer(fault)),
        Err(DeliverError::Checkpoint(fault)) => Err(Stop::Mirror(fault)),
    }
}

/// How bundles are read into a store of these kinds.
fn reading_of(asked: &Apply<'_, '_>, kinds: Kinds) -> Reading {
    if asked.mirror.is_some() {
        Reading::of_mirror(kinds)
    } else {
        Reading::of_words(kinds)
    }
}

/// How each answer is written, of texts that are read into a store of these kinds.
fn form_of(is_json: bool, kinds: Kinds) -> AnswerForm
    ensures { result ≡ form_for is_json kinds }
{
    if is_json {
        AnswerForm::Json(Limits::STANDARD.with_kinds(kinds))
    } else {
        AnswerForm::Plain
    }
}

/// Prints what is shown of the repository.
fn show<'a>(
    rt: &HostRuntime,
    asked: &Apply<'_, 'a>,
    repo: &Repo<Global>,
) -> Result<(), WordFault<'a>> {
    if asked.quiet || asked.json {
        return Ok(());
    }
    let as_bundle = asked.bundle;
    let mut text = Vec::new(rt.alloc());
    push_repo(repo, as_bundle, &mut text)?;
    write_text(&text, &mut Listing::new(rt, as_bundle))?;
    Ok(())
}

/// Takes the bundles that are named, or that come as a stream, and answers each.
fn take_words<'m, 'a, D: Device, F: Files, W: Write>(
    rt: &HostRuntime,
    files: &F,
    colour: Colour,
    asked: &Apply<'m, 'a>,
    store: &mut Store<D>,
    policy: Policy,
    rule: BundleRule,
    form: AnswerForm,
    writer: &mut Watched<W>,
) -> Result<bool, Stop<'a>>
    requires { IsStored D.seen D.may_leave D.file_may_leave store.old }
    // The texts came from the files that are named, in their order; each was answered in turn, and a line written that says so.
    ensures delivers { IfOk result (λ all. (d : Delivers D.moment D.left_since (says form) (CameAsNamed (F.had files.now) asked.now) policy rule store.old store.new
        (output W.contents writer.old) (output W.contents writer.new)) × (IsTrue all ↔ All IsAcceptedAnswer d.answers)) }
    ensures delivers_by { IfErr result (λ stop. DeliversBy D.seen D.moment D.left_since D.faults (says form) (CameAtMost (F.had files.now) asked.now) policy rule stop store.old
        store.new (output W.contents writer.old) (output W.contents writer.new)) }
    ensures kinds { kinds_in store.new ≡ kinds_in store.old }
    ensures stored { OnOk result (IsStored D.seen D.may_leave D.file_may_leave store.new) }
    ensures stored_err { IfErr result (λ e. MayGoOn e → IsStored D.seen D.may_leave D.file_may_leave store.new) }
    ensures any_moment { LeavesOnly D.moment D.left_since store.old.journal.device store.new.journal.device
        (KeepsSome (CameAtMost (F.had files.now) asked.now) (kinds_in store.old) (kept_in store.old) policy rule) }
{
    let explains = asked.explain;
    let reading = reading_of(asked, store.kinds());
    if asked.stream {
        let none: &[&'a str] = &[];
        let mut watcher = Watcher::new(*rt, colour, explains, reading, store.base(), none);
        return take_stream(rt, store, policy, rule, &mut watcher, form, writer);
    }
    let names = asked.bundles.unwrap_or(&[INPUT]);
    let mut watcher = Watcher::new(*rt, colour, explains, reading, store.base(), names);
    match take_named(
        rt.alloc(),
        files,
        names,
        store,
        policy,
        rule,
        &mut watcher,
        form,
        writer,
    ) {
        Ok(all_accepted) => Ok(all_accepted),
        Err(stop) => Err(stop),
    }
}

/// Takes what is asked for, and prints what is shown of the repository then. Returns the exit status.
fn take_and_show<'a, D: Device, F: Files>(
    rt: &HostRuntime,
    files: &F,
    colour: Colour,
    asked: &Apply<'_, 'a>,
    store: &mut Store<D>,
    policy: Policy,
    rule: BundleRule,
) -> Result<u8, Stop<'a>>
    requires { IsStored D.seen D.may_leave D.file_may_leave store.old }
    ensures answers { IfOk result (AnswersAll (CameAsNamed (F.had files.now) asked.now) (kinds_in store.old) policy rule (kept_in store.old) (kept_in store.new)) }
    ensures answers_err { IfErr result (λ e. MayGoOn e → AnswersSome (CameAtMost (F.had files.now) asked.now) (kinds_in store.old) policy rule (kept_in store.old) (kept_in store.new)) }
    ensures kinds { kinds_in store.new ≡ kinds_in store.old }
    ensures stored { OnOk result (IsStored D.seen D.may_leave D.file_may_leave store.new) }
    ensures stored_err { IfErr result (λ e. MayGoOn e → IsStored D.seen D.may_leave D.file_may_leave store.new) }
    ensures any_moment { LeavesOnly D.moment D.left_since store.old.journal.device store.new.journal.device
        (KeepsSome (CameAtMost (F.had files.now) asked.now) (kinds_in store.old) (kept_in store.old) policy rule) }
{
    let mut writer = Watched::new(io::writer(rt));
    let form = form_of(asked.json, store.kinds());
    let all_accepted = match take_words(
        rt,
        files,
        colour,
        asked,
        store,
        policy,
        rule,
        form,
        &mut writer,
    ) {
        Ok(all_accepted) => all_accepted,
        Err(stop) => return Err(stop),
    };
    match show(rt, asked, store.repo()) {
        Ok(()) => Ok(if all_accepted { 0 } else { 1 }),
        Err(fault) => Err(Stop::Beside(fault)),
    }
}

/// Makes a checkpoint where one is worth its while. Where it fails what was taken stands, so that is only said. The file comes back.
fn into_file(rt: &HostRuntime, path: &str, store: Store<DiskFile>) -> DiskFile
    requires { IsStored seen may_leave file_may_leave store }
    // A crash at any moment of it, and from then on, leaves a file that keeps the repository.
    ensures kept { CrashesKeep (kinds_in store) may_leave result (kept_in store) }
    ensures any_moment { LeavesOnly moment left_since store.journal.device result (λ file. KeepsRepo (kinds_in store) file (kept_in store)) }
{
    let mut store = store;
    if !store.wants_checkpoint() {
        let file = store.into_device();
        say_lost_rights(rt, path, &file);
        return file;
    }
    let done = store.checkpoint(rt.alloc());
    let file = store.into_device();
    if let Err(fault) = done {
        say_no_checkpoint(rt, path, fault, &file);
    }
    say_lost_rights(rt, path, &file);
    file
}

fn say_no_checkpoint(rt: &HostRuntime, path: &str, fault: WriteError, file: &DiskFile) {
    let _ = match file.error() {
        Some(error) => eprintln!(rt; "dm: no checkpoint of {path}: {error}"),
        None => eprintln!(rt; "dm: no checkpoint of {path}: {fault}"),
    };
}

/// The exit status of what was tried.
fn status_of_trial<'a>(tried: Result<u8, Stop<'a>>, path: &'a str) -> Result<u8, WordFault<'a>>
    ensures { IfOk result (λ status. tried.entry ≡ Ok status) }
{
    match tried {
        Ok(status) => Ok(status),
        Err(Stop::Mirror(fault)) => Err(WordFault::Unwritten(path, fault)),
        Err(Stop::Beside(fault)) => Err(fault),
    }
}

/// The exit status of what was written, or why there is none, with what the system said.
fn status_of_writing<'a>(
    taken: Result<u8, Stop<'a>>,
    path: &'a str,
    file: &DiskFile,
) -> Result<u8, WordFault<'a>>
    ensures { IfOk result (λ status. taken.entry ≡ Ok status) }
{
    match taken {
        Ok(status) => Ok(status),
        Err(Stop::Beside(fault)) => Err(fault),
        Err(Stop::Mirror(fault)) => Err(blame(WordFault::Unwritten(path, fault), file)),
    }
}

/// `dm apply` without a mirror, of several bundles, or with what one alone isn't asked.
pub fn apply_each<'a, F: Files>(
    rt: &HostRuntime,
    files: &F,
    colour: Colour,
    asked: &Apply<'_, 'a>,
    start: Repo<Global>,
) -> Result<u8, WordFault<'a>>
    ensures { IfOk result (IsAppliedTo (F.had files.now) asked.now start.patches) }
{
    let path = "the repository";
    let mut store = rehearse_start(rt, start, kinds_of(asked.all_kinds), path)?;
    let tried = take_and_show(
        rt,
        files,
        colour,
        asked,
        &mut store,
        policy_of(asked.skip),
        rule_of(asked.hash, ANY),
    );
    status_of_trial(tried, path)
}

/// Refuses a bundle of the whole mirror, where it begins at a tag: a base isn't for others.
fn refuse_bundle_of_base<'a>(
    as_bundle: bool,
    path: &'a str,
    base: usize,
) -> Result<(), WordFault<'a>> {
    if as_bundle && base > 0 {
        return Err(WordFault::BeginsAtTag(path));
    }
    Ok(())
}

/// Takes what is asked for into a mirror, prints what is shown of it then, and makes a checkpoint where one is worth its while. Returns
/// the exit status, and the mirror's file.
fn take_into<'a, F: Files>(
    rt: &HostRuntime,
    files: &F,
    colour: Colour,
    asked: &Apply<'_, 'a>,
    path: &str,
    store: Store<DiskFile>,
    policy: Policy,
    rule: BundleRule,
) -> (Result<u8, Stop<'a>>, DiskFile)
    requires { IsStored seen may_leave file_may_leave store }

    // What was answered is kept, and nothing else is: all that came, or, where something else than the mirror failed, the first of it.
    ensures answers { IfOk result.0 (λ status. LeavesAnswered (kinds_in store) may_leave result.1
        (λ new. AnswersAll (CameAsNamed (F.had files.now) asked.now) (kinds_in store) policy rule (kept_in store) new status)) }
    ensures answers_err { IfErr result.0 (λ stop. MayGoOn stop → LeavesAnswered (kinds_in store) may_leave result.1
        (AnswersSome (CameAtMost (F.had files.now) asked.now) (kinds_in store) policy rule (kept_in store))) }

    // A crash at any moment of it leaves a file that keeps the repository after the first of the texts, some or all.
    ensures any_moment { LeavesOnly moment left_since store.journal.device result.1
        (KeepsSome (CameAtMost (F.had files.now) asked.now) (kinds_in store) (kept_in store) policy rule) }
{
    let mut store = store;
    match take_and_show(rt, files, colour, asked, &mut store, policy, rule) {
        Ok(status) => (Ok(status), into_file(rt, path, store)),
        Err(Stop::Beside(fault)) => (Err(Stop::Beside(fault)), into_file(rt, path, store)),
        Err(Stop::Mirror(fault)) => (Err(Stop::Mirror(fault)), store.into_device()),
    }
}

/// `dm apply --mirror --dry-run`.
fn try_in_mirror<'a, F: Files>(
    rt: &HostRuntime,
    files: &F,
    colour: Colour,
    asked: &Apply<'_, 'a>,
    path: &'a str,
    is_terminal: bool,
) -> Result<Outcome<'a>, WordFault<'a>>
    requires { asked.now.dry_run ≡ true }
    ensures { IfOk result (IsApplied (F.had files.now) asked.now path.now) }
{
    let (mut store, file) = rehearse_mirror(rt, files, colour, asked, path, is_terminal)?;
    refuse_bundle_of_base(asked.bundle, path, store.base())?;
    let policy = policy_of(asked.skip);
    let rule = rule_of(asked.hash, FIT_FOR_DARCS);
    let tried = take_and_show(rt, files, colour, asked, &mut store, policy, rule);
    let answer = status_of_trial(tried, path);
    Ok(Outcome::with_file(answer, file))
}

/// `dm apply --mirror`, written.
fn apply_in_mirror<'a, F: Files>(
    rt: &HostRuntime,
    files: &F,
    colour: Colour,
    asked: &Apply<'_, 'a>,
    path: &'a str,
    is_terminal: bool,
) -> Result<Outcome<'a>, WordFault<'a>>
    requires { asked.now.dry_run ≡ false }
    ensures { IfOk result (IsApplied (F.had files.now) asked.now path.now) }
{
    let store = open_mirror(rt, files, colour, asked, path, is_terminal)?;
    if let Err(fault) = refuse_bundle_of_base(asked.bundle, path, store.base()) {
        let file = Some(store.into_device().close());
        return Ok(Outcome::with_file(Err(fault), file));
    }
    let policy = policy_of(asked.skip);
    let rule = rule_of(asked.hash, FIT_FOR_DARCS);
    let (taken, file) = take_into(rt, files, colour, asked, path, store, policy, rule);
    let answer = status_of_writing(taken, path, &file);
    let file = Some(file.close());
    Ok(Outcome::with_file(answer, file))
}

/// `dm apply --mirror`.
pub fn apply_to_mirror<'a, F: Files>(
    rt: &HostRuntime,
    files: &F,
    colour: Colour,
    asked: &Apply<'_, 'a>,
    path: &'a str,
    is_terminal: bool,
) -> Outcome<'a>
    ensures { IsApplied (F.had files.now) asked.now path.now result }
{
    if let Err(fault) = refuse_kinds(asked.all_kinds) {
        return Outcome::without_file(Err(fault));
    }
    let done = if asked.dry_run {
        try_in_mirror(rt, files, colour, asked, path, is_terminal)
    } else {
        apply_in_mirror(rt, files, colour, asked, path, is_terminal)
    };
    match done {
        Ok(outcome) => outcome,
        Err(fault) => Outcome::without_file(Err(fault)),
    }
}
