//! How a mirror begins: `dm init`, and `dm apply --mirror` where there is none yet.
ghost use Rattle.std.specs.Prelude.{◌≡◌, ◌⊎◌, ℕ, List, [], None, not, IfErr, IfOk, IfSome};
ghost use Rattle.dm_disk.specs.States.{seen, may_leave, file_may_leave, moment, left_since, IsFresh};
ghost use Rattle.dm_journal.specs.Device.{IsDurable, LeavesOnly};
ghost use Rattle.dm_store.specs.Keeping.{IsOrKeeps, IsStored, kept_as, kept_in};
ghost use Rattle.dm_store.specs.Kinds.{kinds_in};
ghost use Rattle.dm_commands.specs.Mirrors.{IsInTheWay, IsMirrorOf};
ghost use Rattle.dm_files.specs.Bases.{BeginsAs};
ghost use Rattle.dm_files.specs.Beginning.{IsBegun};
ghost use Rattle.dm_files.specs.Mirrors.{HadMirror, IsOpenedAs, TellsOf, TellsUnkept};
ghost use Rattle.dm_files.specs.Named.{kinds_for};

use crate::base_tag::say_begun;
use crate::files::{BaseFile, Files, base_of, read_base};
use crate::from_folder::read_beginning;
use crate::mirror::{blame, find_file, of_kept, open_file, open_store};
use crate::outcome::Outcome;
use crate::telling::{Manner, tell};
use crate::word_fault::WordFault;
use crate::words::new_kinds_of;
use dm_commands::{ToolFault, Unbegun, kept_or_new_mirror, new_mirror, repo_of, write_text};
use dm_deliver::{Answer, DateRule, HashRule, date_fault_within, hash_fault_within};
use dm_disk::{Access, ClosedFile, DiskFile, Rehearsal};
use dm_journal::OpenError;
use dm_named::Kinds;
use dm_remarks::{Colour, Reading, explain_base, explain_date, explain_hash_fault};
use dm_repo::Repo;
use dm_store::{Store, StoreError};
use dm_told::{Said, begun_line};
use dm_words::{Apply, BaseWords, Init};
use std::alloc::Global;
use std::io;
use std::rt::Runtime;

/// With what a new mirror begins: a repository, and how many of its patches are its base.
#[derive(Drop)]
struct Start {
    repo: Repo<Global>,
    base: usize,
}

/// Refuses a base whose hash is wrong, or with a date that Darcs can't read: a mirror can't give it back.
fn refuse_unfit_base<'a>(
    rt: &HostRuntime,
    colour: Colour,
    explains: bool,
    file: &BaseFile<'_>,
) -> Result<(), WordFault<'a>> {
    let base = file.base();
    if let Some(fault) = hash_fault_within(
        rt.alloc(),
        base.text,
        base.limits,
        HashRule::NotWrong,
    )? {
        say_unfit(rt, file.name, Answer::Hash(fault));
        if explains {
            explain_hash_fault(rt, colour, base.text, fault);
        }
        return Err(WordFault::Said);
    }
    if let Some(at) = date_fault_within(rt.alloc(), base.text, base.limits, DateRule::Readable)? {
        say_unfit(rt, file.name, Answer::Date(at));
        if explains {
            explain_date(rt, colour, at);
        }
        return Err(WordFault::Said);
    }
    Ok(())
}

/// Says why a base isn't taken.
fn say_unfit(rt: &HostRuntime, name: &str, answer: Answer) {
    let _ = eprintln!(rt; "dm: {name}: {answer}");
}

/// The repository with which a mirror begins: that of `--base` or `--repository`, or an empty one. Why it isn't taken is explained
/// where the words ask for it.
fn read_start<'a, F: Files>(
    rt: &HostRuntime,
    files: &F,
    colour: Colour,
    kinds: Kinds,
    reading: Reading,
    base: BaseWords<'a>,
    explains: bool,
) -> Result<Repo<Global>, WordFault<'a>>
    ensures { IfOk result (λ repo. BeginsAs (F.had files.now) base.entry kinds repo.patches) }
{
    let file = read_base(files, base, kinds)?;
    if let Some(file) = &file {
        refuse_unfit_base(rt, colour, explains, file)?;
    }
    match (repo_of(rt.alloc(), base_of(&file)), &file) {
        (Ok(repo), _) => Ok(repo),
        (Err(fault), Some(file)) => {
            tell(rt, Manner::Full, WordFault::of_base(file.name, fault));
            if let (true, ToolFault::BadBase(verdict)) = (explains, fault) {
                explain_base(rt, colour, reading, file.base(), verdict);
            }
            Err(WordFault::Said)
        }
        (Err(fault), None) => Err(WordFault::Tool(fault)),
    }
}

/// Why no mirror began in the file at a path, with what the system said.
fn of_unbegun<'a>(path: &'a str, fault: Unbegun, file: &DiskFile) -> WordFault<'a>
    ensures { (bytes : List ℕ) → IsInTheWay bytes fault → TellsOf bytes result }
{
    match fault {
        Unbegun::Kept(fault) => of_kept(path, fault),
        Unbegun::IsThere => WordFault::MirrorIsThere(path),
        Unbegun::Unwritten(fault) => blame(WordFault::Unwritten(path, fault), file),
    }
}

/// The mirror of a file: what it keeps, or where it has no bytes one of these kinds that begins with this repository, without a
/// base.
fn store_of<'a>(
    rt: &HostRuntime,
    path: &'a str,
    file: DiskFile,
    start: Repo<Global>,
    kinds: Kinds,
) -> Result<Store<DiskFile>, WordFault<'a>>
    requires { IsDurable seen may_leave file_may_leave file }
    ensures stored { IfOk result (IsStored seen may_leave file_may_leave) }
    ensures kept { IfOk result (λ store. IsMirrorOf (kinds_in store) (seen file) (kept_in store)
        ⊎ ((seen file ≡ []) × (store.repo ≡ start) × (store.base ≡ 0) × (kinds_in store ≡ kinds))) }
    ensures any_moment { IfOk result (λ store. LeavesOnly moment left_since file store.journal.device (IsOrKeeps kinds (seen file) (kept_as 0 start.patches))) }
    ensures opened { IfOk result (λ store. LeavesOnly moment left_since file store.journal.device (IsOrKeeps (kinds_in store) (seen file) (kept_in store))) }
    ensures tells { IfErr result (TellsOf (seen file)) }
{
    let is_empty = file.is_empty();
    match kept_or_new_mirror(rt.alloc(), file, is_empty, start, 0, kinds) {
        Ok(store) => Ok(store),
        Err((fault, file)) => Err(of_unbegun(path, fault, &file)),
    }
}

/// Says that a base isn't used, where one is named, nor the kinds of a new mirror.
fn say_unused(rt: &HostRuntime, asked: &Apply<'_, '_>) {
    if asked.base.base.is_some() {
        let _ = eprintln!(rt; "dm: the mirror is there already; --base isn't used");
    }
    if asked.base.repository.is_some() {
        let _ = eprintln!(rt; "dm: the mirror is there already; --repository isn't used");
    }
    if asked.six_kinds {
        let _ = eprintln!(rt; "dm: the mirror is there already; --six-kinds isn't used");
    }
}

/// The file that was found at a path, or a new one.
fn found_or_made<'a>(
    rt: &HostRuntime,
    path: &'a str,
    no_wait: bool,
    is_terminal: bool,
    found: Option<DiskFile>,
) -> Result<DiskFile, WordFault<'a>>
    requires fresh { IfSome found (IsFresh path.now) }
    requires durable { IfSome found (IsDurable seen may_leave file_may_leave) }
    ensures fresh { IfOk result (IsFresh path.now) }
    ensures durable { IfOk result (IsDurable seen may_leave file_may_leave) }
{
    match found {
        Some(file) => Ok(file),
        None => open_file(rt, path, no_wait, Access::Create, is_terminal),
    }
}

/// The mirror of `--mirror`, to be written. Where there is none it is made of what `--base` or `--repository` names; that is read
/// and taken before a file is made.
pub fn open_mirror<'a, F: Files>(
    rt: &HostRuntime,
    files: &F,
    colour: Colour,
    asked: &Apply<'_, 'a>,
    path: &'a str,
    is_terminal: bool,
) -> Result<Store<DiskFile>, WordFault<'a>>
    ensures stored { IfOk result (IsStored seen may_leave file_may_leave) }
    ensures opened { IfOk result (λ store. IsOpenedAs path.now (HadMirror (F.had files.now) asked.now.base (kinds_in store) (kept_in store)) store) }
{
    let found = match find_file(rt, path, asked.no_wait, Access::Write, is_terminal)? {
        Some(file) if !file.is_empty() => {
            say_unused(rt, asked);
            return open_store(rt, path, file);
        }
        found => found,
    };
    let kinds = new_kinds_of(asked.six_kinds);
    let reading = Reading::of_mirror(kinds);
    let start = read_start(rt, files, colour, kinds, reading, asked.base, asked.explain)?;
    let file = found_or_made(rt, path, asked.no_wait, is_terminal, found)?;
    store_of(rt, path, file, start, kinds)
}

/// A repository without a base, as a mirror of these kinds of which nothing is written.
pub fn rehearse_start<'a>(
    rt: &HostRuntime,
    start: Repo<Global>,
    kinds: Kinds,
    path: &'a str,
) -> Result<Store<Rehearsal>, WordFault<'a>>
    ensures stored { IfOk result (IsStored seen may_leave file_may_leave) }
    ensures kinds { IfOk result (λ store. kinds_in store ≡ kinds) }
    ensures same { IfOk result (λ store. store.repo ≡ start) }
    ensures base { IfOk result (λ store. store.base ≡ 0) }
{
    let device = Rehearsal::new(Vec::new(rt.alloc()));
    match Store::create(rt.alloc(), device, start, 0, kinds) {
        Ok(store) => Ok(store),
        Err((fault, _)) => Err(WordFault::Unwritten(path, fault)),
    }
}

/// The mirror that a file keeps, of which nothing is written from here on, and the file, let go.
fn rehearse_kept<'a>(
    rt: &HostRuntime,
    path: &'a str,
    file: DiskFile,
) -> Result<(Store<Rehearsal>, ClosedFile), WordFault<'a>>
    ensures stored { IfOk result (λ r. IsStored seen may_leave file_may_leave r.0) }
    ensures keeps { IfOk result (λ r. IsMirrorOf (kinds_in r.0) (seen file) (kept_in r.0)) }
    ensures closed { IfOk result (λ r. r.1 ≡ file) }
    ensures tells { IfErr result (TellsUnkept (seen file)) }
{
    match file.rehearse() {
        Ok((rehearsal, closed)) => match open_store(rt, path, rehearsal) {
            Ok(store) => Ok((store, closed)),
            Err(fault) => Err(fault),
        },
        Err(error) => Err(WordFault::BadMirror(
            path,
            StoreError::Journal(OpenError::Device(error)),
        )),
    }
}

/// A mirror that is only tried: the one that a file keeps, or one that begins with what the words name. Nothing is written. The file
/// is let go, where there is one.
pub fn rehearse_mirror<'a, F: Files>(
    rt: &HostRuntime,
    files: &F,
    colour: Colour,
    asked: &Apply<'_, 'a>,
    path: &'a str,
    is_terminal: bool,
) -> Result<(Store<Rehearsal>, Option<ClosedFile>), WordFault<'a>>
    ensures stored { IfOk result (λ r. IsStored seen may_leave file_may_leave r.0) }
    ensures opened { IfOk result (λ r. IfSome r.1 (λ file. IsFresh path.now file × HadMirror (F.had files.now) asked.now.base (kinds_in r.0) (kept_in r.0) (seen file))) }
{
    let closed = match find_file(rt, path, asked.no_wait, Access::Read, is_terminal)? {
        Some(file) if !file.is_empty() => {
            say_unused(rt, asked);
            let (store, closed) = rehearse_kept(rt, path, file)?;
            return Ok((store, Some(closed)));
        }
        Some(file) => Some(file.close()),
        None => None,
    };
    let kinds = new_kinds_of(asked.six_kinds);
    let reading = Reading::of_mirror(kinds);
    let start = read_start(rt, files, colour, kinds, reading, asked.base, asked.explain)?;
    let store = rehearse_start(rt, start, kinds, path)?;
    Ok((store, closed))
}

/// Why a file that has bytes is no place for a new mirror: it keeps one, or something else.
fn refuse_place<'a>(rt: &HostRuntime, path: &'a str, file: DiskFile) -> WordFault<'a>
    requires { IsDurable seen may_leave file_may_leave file }
{
    match open_store(rt, path, file) {
        Ok(_) => WordFault::MirrorIsThere(path),
        Err(fault) => fault,
    }
}

/// A mirror of these kinds that begins with a repository and a base, where the file is empty.
fn begin_store<'a>(
    rt: &HostRuntime,
    path: &'a str,
    file: DiskFile,
    start: Start,
    kinds: Kinds,
) -> Result<Store<DiskFile>, WordFault<'a>>
    requires { IsDurable seen may_leave file_may_leave file }
    ensures stored { IfOk result (IsStored seen may_leave file_may_leave) }
    ensures kinds { IfOk result (λ store. kinds_in store ≡ kinds) }
    ensures begun { IfOk result (λ store. (seen file ≡ []) × (store.repo ≡ start.repo) × (store.base ≡ start.base)) }
    ensures any_moment { IfOk result (λ store. LeavesOnly moment left_since file store.journal.device (IsOrKeeps kinds [] (kept_as start.base start.repo.patches))) }
    ensures tells { IfErr result (TellsOf (seen file)) }
{
    let is_empty = file.is_empty();
    match new_mirror(rt.alloc(), file, is_empty, start.repo, start.base, kinds) {
        Ok(store) => Ok(store),
        Err((fault, file)) => Err(of_unbegun(path, fault, &file)),
    }
}

/// With what a new mirror begins: at a tag, where the words name what it covers, and then all that there is is the base.
fn read_first<'a, F: Files>(
    rt: &HostRuntime,
    files: &F,
    colour: Colour,
    kinds: Kinds,
    asked: &Init<'a>,
) -> Result<Start, WordFault<'a>>
    ensures { IfOk result (λ start. asked.now.names ≡ None → (start.base ≡ 0) × BeginsAs (F.had files.now) asked.now.base kinds start.repo.patches) }
{
    match asked.names {
        Some(names) => {
            let repo = read_beginning(rt, asked, names)?;
            let base = repo.len();
            Ok(Start { repo, base })
        }
        None => {
            let reading = Reading::of_words(kinds);
            let repo = read_start(rt, files, colour, kinds, reading, asked.base, asked.explain)?;
            Ok(Start { repo, base: 0 })
        }
    }
}

/// A new mirror, of what `--base` or `--repository` names, or of the names of `--names` and a folder. That is read
/// and taken before a file is made.
fn make_mirror<'a, F: Files>(
    rt: &HostRuntime,
    files: &F,
    colour: Colour,
    asked: &Init<'a>,
    is_terminal: bool,
) -> Result<Store<DiskFile>, WordFault<'a>>
    ensures stored { IfOk result (IsStored seen may_leave file_may_leave) }
    ensures kinds { IfOk result (λ store. kinds_in store ≡ kinds_for (not asked.now.six_kinds)) }
    ensures opened { IfOk result (IsOpenedAs asked.now.mirror.now (λ file. file ≡ [])) }
    ensures begun { IfOk result (λ store. asked.now.names ≡ None → (store.base ≡ 0) × BeginsAs (F.had files.now) asked.now.base (kinds_in store) store.repo.patches) }
{
    let path = asked.mirror;
    let found = match find_file(rt, path, asked.no_wait, Access::Write, is_terminal)? {
        Some(file) if !file.is_empty() => return Err(refuse_place(rt, path, file)),
        found => found,
    };
    let kinds = new_kinds_of(asked.six_kinds);
    let start = read_first(rt, files, colour, kinds, asked)?;
    let file = found_or_made(rt, path, asked.no_wait, is_terminal, found)?;
    begin_store(rt, path, file, start, kinds)
}

/// The line that says with how many patches a mirror began.
fn begun_text<'a>(
    rt: &HostRuntime,
    is_json: bool,
    path: &str,
    count: usize,
) -> Result<Vec<u8>, WordFault<'a>> {
    let said = Said::Began(path, count);
    if is_json {
        let text = format!(in rt.alloc(); "{said}")?;
        return Ok(begun_line(rt.alloc(), path, count, &text)?);
    }
    Ok(said.line(rt.alloc())?)
}

/// Says with how many patches a mirror began.
fn tell_begun<'a>(
    rt: &HostRuntime,
    asked: &Init<'a>,
    store: &Store<DiskFile>,
) -> Result<u8, WordFault<'a>> {
    let line = begun_text(rt, asked.json, asked.mirror, store.repo().len())?;
    write_text(&line, &mut io::writer(rt))?;
    say_begun(rt, store.repo(), store.base());
    Ok(0)
}

/// `dm init`.
pub fn init<'a, F: Files>(
    rt: &HostRuntime,
    files: &F,
    colour: Colour,
    asked: &Init<'a>,
    is_terminal: bool,
) -> Outcome<'a>
    ensures { IsBegun (F.had files.now) asked.now result }
{
    match make_mirror(rt, files, colour, asked, is_terminal) {
        Ok(store) => {
            let answer = tell_begun(rt, asked, &store);
            let file = Some(store.into_device().close());
            Outcome::with_file(answer, file)
        }
        Err(fault) => Outcome::without_file(Err(fault)),
    }
}
