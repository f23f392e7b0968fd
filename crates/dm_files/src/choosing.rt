//! Which patches of a mirror the words of a command choose.
ghost use Rattle.std.specs.Prelude.{◌≡◌, ℕ, List, map, IfErr, IfOk};
ghost use Rattle.std.specs.Borrow.{Bor};
ghost use Rattle.dm_bundle.specs.Patches.{infos_of};
ghost use Rattle.dm_log.specs.declared.finding.Found.{Found as FoundOne};
ghost use Rattle.dm_files.specs.Choosing.{ChoiceFails, Chooses};
ghost use Rattle.dm_files.specs.declared.choosing.Unchosen.TheVariants.{NoMemory, Word};

use crate::take_back_fault::TakeBackFault;
use crate::word_fault::WordFault;
use dm_commands::ToolFault;
use dm_info::Info;
use dm_log::{Found, find_patch, hash_text};
use dm_quoted::Quoted;
use dm_repo::Repo;
use std::alloc::{AllocError, AllocFailed, Global};
use std::rt::Runtime;
use std::str;

/// How many digits of a hash are shown.
const SHOWN_DIGITS: usize = 12;

/// Why words choose nothing.
#[derive(Clone, Copy)]
enum Unchosen<'a> {
    /// This word doesn't name one patch alone.
    Word(&'a str, Found),
    NoMemory,
}

impl From<AllocError> for Unchosen<'_> {
    ghost from_gives = { λ _ fault. fault ≡ NoMemory };

    fn from(_: AllocError) -> Self {
        Unchosen::NoMemory
    }
}

impl<T: Drop> From<AllocFailed<T>> for Unchosen<'_> {
    ghost from_gives = { λ _ fault. fault ≡ NoMemory };

    fn from(_: AllocFailed<T>) -> Self {
        Unchosen::NoMemory
    }
}

/// The first digits of a patch's hash, and its name.
pub fn label_of(alloc: Global, info: &Info<Global>) -> Result<String, AllocError> {
    let mut hash = hash_text(alloc, info)?;
    hash.truncate(SHOWN_DIGITS);
    let digits = str::from_utf8(&hash).unwrap_or("");
    let name = Quoted { text: info.name() };
    format!(in alloc; "{digits} {name}")
}

/// The names of the patches that words name, each one alone.
fn choose<'a>(
    alloc: Global,
    repo: &Repo<Global>,
    words: &[&'a str],
) -> Result<Vec<Info<Global>>, Unchosen<'a>>
    ensures chosen { IfOk result (λ names. Chooses (infos_of repo.now.patches) (map (λ word. word.now) words.now) names.items) }
    ensures fails { IfErr result (λ e. (word : Bor (List ℕ)) (found : FoundOne) → e ≡ Word word found →
        ChoiceFails (infos_of repo.now.patches) word.now found) }
{
    let mut names = Vec::with_capacity(alloc, words.len())?;
    for word in words {
        let found = find_patch(alloc, repo, word.as_bytes())?;
        let Found::One(place) = found else {
            return Err(Unchosen::Word(word, found));
        };
        let name = repo.patch(place).info().copy_into(alloc)?;
        names.push(name)?;
    }
    Ok(names)
}

/// A patch's place as `dm log --places` prints it, and its label.
fn placed_label(alloc: Global, place: usize, info: &Info<Global>) -> Result<String, AllocError> {
    let label = label_of(alloc, info)?;
    format!(in alloc; "#{place} {label}")
}

/// Why words choose nothing; of two patches that a word names, both are told.
fn refuse_choice<'a>(
    rt: &HostRuntime,
    repo: &Repo<Global>,
    fault: Unchosen<'a>,
) -> Result<WordFault<'a>, AllocError> {
    let (word, found) = match fault {
        Unchosen::Word(word, found) => (word, found),
        Unchosen::NoMemory => return Ok(WordFault::Tool(ToolFault::NoMemory)),
    };
    let Found::Several(first, second) = found else {
        return Ok(WordFault::TakeBack(TakeBackFault::UnknownPatch(word)));
    };
    if first >= repo.len() || second >= repo.len() {
        return Ok(WordFault::TakeBack(TakeBackFault::UnknownPatch(word)));
    }
    let first = placed_label(rt.alloc(), first + 1, repo.patch(first).info())?;
    let second = placed_label(rt.alloc(), second + 1, repo.patch(second).info())?;
    let _ = eprintln!(rt;
        "dm: {word} names two patches: {first} and {second}; their places tell them apart"
    );
    Ok(WordFault::Said)
}

/// The names of the patches that these words choose.
pub fn chosen_names<'a>(
    rt: &HostRuntime,
    words: &[&'a str],
    repo: &Repo<Global>,
) -> Result<Vec<Info<Global>>, WordFault<'a>>
    ensures { IfOk result (λ names. Chooses (infos_of repo.now.patches) (map (λ word. word.now) words.now) names.items) }
{
    match choose(rt.alloc(), repo, words) {
        Ok(names) => Ok(names),
        Err(fault) => Err(refuse_choice(rt, repo, fault)?),
    }
}
