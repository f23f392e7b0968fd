//! `dm obliterate`: patches are taken out of a mirror, and kept as a bundle.
ghost use Rattle.std.specs.Prelude.{◌≡◌, ◌⊎◌, ℕ, List, None, false, Ok, IfOk, IsTrue, OnOk};
ghost use Rattle.dm_disk.specs.States.{seen, may_leave, file_may_leave, moment, left_since, IsFresh};
ghost use Rattle.dm_journal.specs.Device.{IsDurable, LeavesOnly, Within};
ghost use Rattle.dm_named.specs.Laws.{with_kinds};
ghost use Rattle.dm_named.specs.Limits.{standard};
ghost use Rattle.dm_named.specs.Patches.{Patch};
ghost use Rattle.dm_scratch.specs.Taking.{ReadsWithin};
ghost use Rattle.dm_store.specs.Keeping.{CrashesKeep, IsStored, KeepsEither, kept_as, kept_in};
ghost use Rattle.dm_store.specs.Kinds.{kinds_in};
ghost use Rattle.dm_store.specs.LettingGo.{GivesBack, LosesNothing};
ghost use Rattle.dm_commands.specs.Obliterating.{ObliteratesBehind, TakesOut};
ghost use Rattle.dm_files.specs.Obliterating.{Goes, IsObliterated, IsSavedAsAsked, IsSavedIn, LetsGo, MayGo};

use crate::base_tag::refuse_before_base;
use crate::choosing::{chosen_names, label_of};
use crate::mirror::{blame, open_file, open_store, say_lost_rights, unopened};
use crate::outcome::Outcome;
use crate::take_back_fault::TakeBackFault;
use crate::telling::{Output, write_refusal};
use crate::word_fault::WordFault;
use dm_bundle::Bundle;
use dm_commands::{
    ToolFault, Unkept, keep_and_let_go, obliterate_unless_base, refusal_line, text_of, write_text,
};
use dm_deliver::Answer;
use dm_disk::{Access, ClosedFile, DiskFile, Lock};
use dm_info::Info;
use dm_journal::replace_file;
use dm_named::Kinds;
use dm_remarks::{Colour, say};
use dm_repo::{Refusal, Repo};
use dm_scratch::Verdict;
use dm_send::Obliterated;
use dm_store::Store;
use dm_told::{Said, bound_line, made_line, own_line};
use dm_words::Obliterate;
use std::alloc::Global;
use std::io;
use std::rt::Runtime;

/// The file for the bundle of what goes: it has no bytes, or is made.
fn open_kept<'a>(rt: &HostRuntime, name: &'a str) -> Result<DiskFile, WordFault<'a>>
    ensures fresh { IfOk result (IsFresh name.now) }
    ensures durable { IfOk result (IsDurable seen may_leave file_may_leave) }
{
    match DiskFile::open(rt, name, Access::Create, Lock::Try) {
        Ok(file) if file.is_empty() => Ok(file),
        Ok(_) => Err(WordFault::TakeBack(TakeBackFault::OutputIsThere(name))),
        Err(fault) => Err(unopened(name, fault)),
    }
}

/// Puts a bundle into a new file.
pub fn write_bundle_file<'a>(
    rt: &HostRuntime,
    name: &'a str,
    text: &[u8],
) -> Result<(), WordFault<'a>> {
    let mut file = open_kept(rt, name)?;
    match replace_file(&mut file, text) {
        Ok(()) => Ok(()),
        Err(fault) => Err(blame(WordFault::Unwritten(name, fault), &file)),
    }
}

/// The end of a command that may have changed a mirror: `false` says that what stays is too large for one.
fn finish<'a>(done: bool, path: &'a str) -> Result<(), WordFault<'a>>
    ensures { OnOk result (IsTrue done) }
{
    if done {
        Ok(())
    } else {
        Err(WordFault::TakeBack(TakeBackFault::TooLargeToStay(path)))
    }
}

/// Prints how many patches went, or as JSON which.
fn print_gone<'a>(
    rt: &HostRuntime,
    output: Output,
    kept: &Bundle<Global>,
) -> Result<(), WordFault<'a>> {
    if output == Output::Json {
        let line = made_line(rt.alloc(), "obliterated", kept, None)?;
        write_text(&line, &mut io::writer(rt))?;
        return Ok(());
    }
    let line = Said::Obliterated(kept.new_patches().len()).line(rt.alloc())?;
    write_text(&line, &mut io::writer(rt))?;
    Ok(())
}

/// What standard output gets of a bundle that is kept nowhere else: its text, or as JSON all of it.
fn shown_of<'a>(
    rt: &HostRuntime,
    output: Output,
    kept: &Bundle<Global>,
    text: Vec<u8>,
) -> Result<Vec<u8>, WordFault<'a>> {
    if output == Output::Json {
        return Ok(made_line(rt.alloc(), "obliterated", kept, Some(&text))?);
    }
    Ok(text)
}

/// Says on standard error how many patches went.
fn say_count(rt: &HostRuntime, count: usize) {
    let _ = match count {
        1 => eprintln!(rt; "dm: obliterated 1 patch"),
        _ => eprintln!(rt; "dm: obliterated {count} patches"),
    };
}

/// Keeps the bundle in a file, which has this name, and has the mirror let go of what it has.
fn keep_in_file<'a>(
    rt: &HostRuntime,
    path: &'a str,
    store: &mut Store<DiskFile>,
    name: &'a str,
    file: &mut DiskFile,
    text: &[u8],
    stays: Repo<Global>,
) -> Result<(), WordFault<'a>>
    requires stored { IsStored seen may_leave file_may_leave store.old }
    requires durable { IsDurable seen may_leave file_may_leave file.old }
    requires takes_out { TakesOut (kinds_in store.old) store.old.repo.patches stays.patches text.now }
    ensures done { OnOk result (store.new.repo ≡ stays) }
    ensures keeps { OnOk result (CrashesKeep (kinds_in store.old) may_leave store.new.journal.device (kept_as store.old.base stays.patches)) }
    ensures saved { OnOk result (Within (may_leave file.new) (GivesBack (kinds_in store.old) store.old.repo.patches stays.patches)) }
    // A crash at any moment of it loses no patch: the mirror's file keeps the repository, or what stays, and then the bundle's gives back
    // the rest.
    ensures any_moment { LeavesOnly moment left_since store.old.journal.device store.new.journal.device
        (LosesNothing (kinds_in store.old) (kept_in store.old) (kept_as store.old.base stays.patches) (may_leave file.new)) }
    ensures file { LeavesOnly moment left_since file.old file.new (λ c. (c ≡ seen file.old) ⊎ (c ≡ text.now)) }
{
    match keep_and_let_go(rt.alloc(), store, file, text, stays) {
        Ok(done) => finish(done, path),
        Err(Unkept::Bundle(fault)) => Err(blame(WordFault::Unwritten(name, fault), file)),
        Err(Unkept::Mirror(fault)) => Err(WordFault::Unwritten(path, fault)),
    }
}

/// Has the mirror let go of what was kept elsewhere.
fn let_go<'a>(
    rt: &HostRuntime,
    path: &'a str,
    store: &mut Store<DiskFile>,
    stays: Repo<Global>,
) -> Result<(), WordFault<'a>>
    requires { IsStored seen may_leave file_may_leave store.old }
    ensures done { OnOk result (store.new.repo ≡ stays) }
    ensures keeps { OnOk result (CrashesKeep (kinds_in store.old) may_leave store.new.journal.device (kept_as store.old.base stays.patches)) }
    // A crash at any moment of it leaves a file that keeps the repository, or what stays.
    ensures any_moment { LeavesOnly moment left_since store.old.journal.device store.new.journal.device
        (KeepsEither (kinds_in store.old) (kept_in store.old) (kept_as store.old.base stays.patches)) }
{
    match store.replace(rt.alloc(), stays) {
        Ok(done) => finish(done, path),
        Err(fault) => Err(WordFault::Unwritten(path, fault)),
    }
}

/// Prints the bundle, as it is shown, and has the mirror let go of what it has.
fn print_and_let_go<'a>(
    rt: &HostRuntime,
    path: &'a str,
    store: &mut Store<DiskFile>,
    shown: &[u8],
    stays: Repo<Global>,
) -> Result<(), WordFault<'a>>
    requires { IsStored seen may_leave file_may_leave store.old }
    ensures done { OnOk result (store.new.repo ≡ stays) }
    ensures keeps { OnOk result (CrashesKeep (kinds_in store.old) may_leave store.new.journal.device (kept_as store.old.base stays.patches)) }
    // A crash at any moment of it leaves a file that keeps the repository, or what stays.
    ensures any_moment { LeavesOnly moment left_since store.old.journal.device store.new.journal.device
        (KeepsEither (kinds_in store.old) (kept_in store.old) (kept_as store.old.base stays.patches)) }
{
    write_text(shown, &mut io::writer(rt))?;
    let_go(rt, path, store, stays)
}

/// Says on standard error which patches can't do without one that goes.
pub fn say_bound<'a>(
    rt: &HostRuntime,
    bound: &[(Info<Global>, Info<Global>)],
) -> Result<(), WordFault<'a>> {
    for (name, by) in bound {
        let name = label_of(rt.alloc(), name)?;
        let by = label_of(rt.alloc(), by)?;
        let _ = eprintln!(rt; "dm: {name} rests on {by}");
    }
    Ok(())
}

/// Says that patches are bound to those that were chosen, and which.
pub fn refuse_bound<'a>(
    rt: &HostRuntime,
    output: Output,
    bound: &[(Info<Global>, Info<Global>)],
) -> Result<u8, WordFault<'a>>
    ensures { IfOk result (λ status. status ≡ 1) }
{
    let line = match output {
        Output::Json => bound_line(rt.alloc(), bound)?,
        _ => Said::Depends(bound.len()).line(rt.alloc())?,
    };
    write_refusal(rt, output, &line)?;
    say_bound(rt, bound)?;
    Ok(1)
}

/// Writes the line of a refusal.
pub fn refuse<'a>(
    rt: &HostRuntime,
    output: Output,
    repo: &Repo<Global>,
    why: Refusal,
) -> Result<u8, WordFault<'a>>
    ensures { IfOk result (λ status. status ≡ 1) }
{
    let plain = refusal_line(rt.alloc(), why)?;
    let line = match output {
        Output::Json => own_line(rt.alloc(), repo, Answer::Verdict(Verdict::Refused(why)))?,
        _ => plain,
    };
    write_refusal(rt, output, &line)?;
    Ok(1)
}

/// Says which patches go, and how many stay.
fn explain_obliterated<'a>(
    rt: &HostRuntime,
    colour: Colour,
    out: &Obliterated<Global>,
) -> Result<(), WordFault<'a>> {
    say(rt, colour, &format_args!("These go:\n"));
    for patch in out.bundle.new_patches() {
        let label = label_of(rt.alloc(), patch.info())?;
        say(rt, colour, &format_args!("  {label}\n"));
    }
    let count = out.repo.len();
    match count {
        1 => say(rt, colour, &format_args!("1 patch stays.\n")),
        _ => say(rt, colour, &format_args!("{count} patches stay.\n")),
    }
    Ok(())
}

/// The text of the bundle of what goes, of primitives of these kinds, which is within the limits of what is read.
fn kept_text<'a>(
    rt: &HostRuntime,
    kinds: Kinds,
    bundle: &Bundle<Global>,
) -> Result<Vec<u8>, WordFault<'a>>
    ensures { IfOk result (λ text. ReadsWithin (with_kinds standard kinds) text.items bundle.now) }
{
    match text_of(rt.alloc(), kinds, bundle) {
        Ok(text) => Ok(text),
        Err(ToolFault::TooManyToSend) => Err(WordFault::TakeBack(TakeBackFault::TooManyToTakeOut)),
        Err(fault) => Err(WordFault::Tool(fault)),
    }
}

/// Keeps the bundle in a new file of this name, has the mirror let go of what it has, and says how many patches went. The file, let go,
/// is put into `saved`.
fn save_and_let_go<'a>(
    rt: &HostRuntime,
    output: Output,
    path: &'a str,
    store: &mut Store<DiskFile>,
    name: &'a str,
    kept: &Bundle<Global>,
    text: &[u8],
    stays: Repo<Global>,
    saved: &mut Option<ClosedFile>,
) -> Result<(), WordFault<'a>>
    requires stored { IsStored seen may_leave file_may_leave store.old }
    requires takes_out { TakesOut (kinds_in store.old) store.old.repo.patches stays.patches text.now }
    requires none { saved.old ≡ None }
    ensures keeps { OnOk result (CrashesKeep (kinds_in store.old) may_leave store.new.journal.device (kept_as store.old.base stays.patches)) }
    ensures saved { OnOk result (IsSavedIn (kinds_in store.old) store.old.repo.patches stays.patches saved.new name.now) }
    // A crash at any moment of it loses no patch.
    ensures any_moment { LeavesOnly moment left_since store.old.journal.device store.new.journal.device
        (LetsGo (kinds_in store.old) (kept_in store.old) (kept_as store.old.base stays.patches) saved.new) }
{
    let mut file = open_kept(rt, name)?;
    let done = keep_in_file(rt, path, store, name, &mut file, text, stays);
    *saved = Some(file.close());
    done?;
    print_gone(rt, output, kept)
}

/// Keeps the bundle where that is asked for, has the mirror let go of what it has, and says how many patches went.
fn keep_where_said<'a>(
    rt: &HostRuntime,
    asked: &Obliterate<'_, 'a>,
    path: &'a str,
    store: &mut Store<DiskFile>,
    kept: &Bundle<Global>,
    text: Vec<u8>,
    stays: Repo<Global>,
    saved: &mut Option<ClosedFile>,
) -> Result<u8, WordFault<'a>>
    requires stored { IsStored seen may_leave file_may_leave store.old }
    requires takes_out { TakesOut (kinds_in store.old) store.old.repo.patches stays.patches text.items }
    requires none { saved.old ≡ None }
    ensures keeps { OnOk result (CrashesKeep (kinds_in store.old) may_leave store.new.journal.device (kept_as store.old.base stays.patches)) }
    ensures saved { OnOk result (IsSavedAsAsked asked.now (kinds_in store.old) store.old.repo.patches stays.patches saved.new) }
    // A crash at any moment of it loses no patch.
    ensures any_moment { LeavesOnly moment left_since store.old.journal.device store.new.journal.device
        (LetsGo (kinds_in store.old) (kept_in store.old) (kept_as store.old.base stays.patches) saved.new) }
{
    let output = output_of(asked);
    match asked.output {
        Some(name) => {
            save_and_let_go(rt, output, path, store, name, kept, &text, stays, saved)?;
        }
        None => {
            let shown = shown_of(rt, output, kept, text)?;
            print_and_let_go(rt, path, store, &shown, stays)?;
            say_count(rt, kept.new_patches().len());
        }
    }
    Ok(0)
}

/// The bundle of what goes is kept where that is asked for, and the mirror lets go of it; a trial prints it alone.
fn keep_or_show<'a>(
    rt: &HostRuntime,
    asked: &Obliterate<'_, 'a>,
    path: &'a str,
    store: &mut Store<DiskFile>,
    kept: &Bundle<Global>,
    stays: Repo<Global>,
    saved: &mut Option<ClosedFile>,
) -> Result<u8, WordFault<'a>>
    requires stored { IsStored seen may_leave file_may_leave store.old }
    requires takes_out { (text : List ℕ) → ReadsWithin (with_kinds standard (kinds_in store.old)) text kept.now
        → TakesOut (kinds_in store.old) store.old.repo.patches stays.patches text }
    requires none { saved.old ≡ None }
    ensures keeps { OnOk result (asked.now.dry_run ≡ false
        → CrashesKeep (kinds_in store.old) may_leave store.new.journal.device (kept_as store.old.base stays.patches)) }
    ensures saved { OnOk result (asked.now.dry_run ≡ false → IsSavedAsAsked asked.now (kinds_in store.old) store.old.repo.patches stays.patches saved.new) }
    // A crash at any moment of it loses no patch.
    ensures any_moment { LeavesOnly moment left_since store.old.journal.device store.new.journal.device
        (LetsGo (kinds_in store.old) (kept_in store.old) (kept_as store.old.base stays.patches) saved.new) }
{
    let text = kept_text(rt, store.kinds(), kept)?;
    if asked.dry_run {
        let shown = shown_of(rt, output_of(asked), kept, text)?;
        write_text(&shown, &mut io::writer(rt))?;
        return Ok(0);
    }
    keep_where_said(rt, asked, path, store, kept, text, stays, saved)
}

/// Takes what goes out of a mirror.
fn take_out<'a>(
    rt: &HostRuntime,
    asked: &Obliterate<'_, 'a>,
    path: &'a str,
    store: &mut Store<DiskFile>,
    chosen: &[Info<Global>],
    out: Obliterated<Global>,
    saved: &mut Option<ClosedFile>,
) -> Result<u8, WordFault<'a>>
    requires stored { IsStored seen may_leave file_may_leave store.old }
    requires obliterates { ObliteratesBehind store.old.repo.patches store.old.base chosen.now out.repo.patches out.bundle out.bound.items }
    requires none { saved.old ≡ None }
    ensures keeps { OnOk result (asked.now.dry_run ≡ false
        → CrashesKeep (kinds_in store.old) may_leave store.new.journal.device (kept_as store.old.base out.repo.patches)) }
    ensures saved { OnOk result (asked.now.dry_run ≡ false → IsSavedAsAsked asked.now (kinds_in store.old) store.old.repo.patches out.repo.patches saved.new) }
    // A crash at any moment of it loses no patch.
    ensures any_moment { LeavesOnly moment left_since store.old.journal.device store.new.journal.device
        (LetsGo (kinds_in store.old) (kept_in store.old) (kept_as store.old.base out.repo.patches) saved.new) }
{
    let Obliterated { repo, bundle, .. } = out;
    if bundle.new_patches().is_empty() {
        return Err(WordFault::TakeBack(TakeBackFault::NothingToUndo));
    }
    keep_or_show(rt, asked, path, store, &bundle, repo, saved)
}

/// What standard output is for, where a file may get the bundle.
fn output_of(asked: &Obliterate<'_, '_>) -> Output {
    if asked.json {
        Output::Json
    } else if asked.output.is_some() {
        Output::Lines
    } else {
        Output::Bundle
    }
}

/// Takes the patches that are chosen out of a mirror.
fn take_chosen<'a>(
    rt: &HostRuntime,
    colour: Colour,
    asked: &Obliterate<'_, 'a>,
    path: &'a str,
    store: &mut Store<DiskFile>,
    saved: &mut Option<ClosedFile>,
) -> Result<u8, WordFault<'a>>
    requires stored { IsStored seen may_leave file_may_leave store.old }
    requires none { saved.old ≡ None }
    // Where patches went, the mirror keeps what stays once those that were chosen are out, with what is bound to them.
    ensures goes { IfOk result (λ status. status ≡ 0 → asked.now.dry_run ≡ false → (stays : List Patch) × Goes asked.now (kept_in store.old) stays
        × CrashesKeep (kinds_in store.old) may_leave store.new.journal.device (kept_as store.old.base stays)
        × IsSavedAsAsked asked.now (kinds_in store.old) store.old.repo.patches stays saved.new) }
    // A crash at any moment of it loses no patch.
    ensures any_moment { (stays : List Patch) × MayGo asked.now (kept_in store.old) stays × LeavesOnly moment left_since store.old.journal.device store.new.journal.device
        (LetsGo (kinds_in store.old) (kept_in store.old) (kept_as store.old.base stays) saved.new) }
{
    let chosen = chosen_names(rt, asked.patches.unwrap_or(&[]), store.repo())?;
    let output = output_of(asked);
    let out = match obliterate_unless_base(rt.alloc(), store.repo(), store.base(), &chosen) {
        Ok(Some(out)) => out,
        Ok(None) => return refuse_before_base(
            rt,
            output,
            store.repo(),
            store.base(),
            "nothing was taken out",
        ),
        Err(why) => return refuse(rt, output, store.repo(), why),
    };
    if !out.bound.is_empty() && !asked.with_dependents {
        let status = refuse_bound(rt, output, &out.bound)?;
        let _ = eprintln!(rt;
            "dm: nothing was taken out; --with-dependents takes these patches out too"
        );
        return Ok(status);
    }
    if asked.explain {
        say_bound(rt, &out.bound)?;
        explain_obliterated(rt, colour, &out)?;
    }
    take_out(rt, asked, path, store, &chosen, out, saved)
}

/// The exit status, or why there is none, with what the system said.
fn status_of_taking<'a>(
    taken: Result<u8, WordFault<'a>>,
    file: &DiskFile,
) -> Result<u8, WordFault<'a>>
    ensures { IfOk result (λ status. taken.entry ≡ Ok status) }
{
    match taken {
        Ok(status) => Ok(status),
        Err(fault) => Err(blame(fault, file)),
    }
}

/// Takes the patches that are chosen out of the mirror that is named.
fn obliterate_in_mirror<'a>(
    rt: &HostRuntime,
    colour: Colour,
    asked: &Obliterate<'_, 'a>,
    is_terminal: bool,
) -> Result<Outcome<'a>, WordFault<'a>>
    ensures { IfOk result (IsObliterated asked.now) }
{
    let path = asked.mirror;
    let access = if asked.dry_run {
        Access::Read
    } else {
        Access::Write
    };
    let file = open_file(rt, path, asked.no_wait, access, is_terminal)?;
    let mut store = open_store(rt, path, file)?;
    let mut saved = None;
    let taken = take_chosen(rt, colour, asked, path, &mut store, &mut saved);
    let file = store.into_device();
    say_lost_rights(rt, path, &file);
    let answer = status_of_taking(taken, &file);
    let file = Some(file.close());
    Ok(Outcome {
        answer,
        file,
        saved,
    })
}

/// `dm obliterate`.
pub fn obliterate_chosen<'a>(
    rt: &HostRuntime,
    colour: Colour,
    asked: &Obliterate<'_, 'a>,
    is_terminal: bool,
) -> Outcome<'a>
    ensures { IsObliterated asked.now result }
{
    match obliterate_in_mirror(rt, colour, asked, is_terminal) {
        Ok(outcome) => outcome,
        Err(fault) => Outcome::without_file(Err(fault)),
    }
}
