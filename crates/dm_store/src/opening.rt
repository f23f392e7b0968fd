//! How the entries of a journal are taken again.
ghost use Rattle.std.specs.Prelude.{◌≡◌, ◌≢◌, ◌⊎◌, ◌↔◌, ◌<◌, ◌≤◌, ◌^◌, ◌++◌, ℕ, List, [], length, drop, map, IfOk, IfErr, IfSome, IfNone, OnOk, IsTrue};
ghost use Rattle.dm_named.specs.Laws.{with_kinds};
ghost use Rattle.dm_named.specs.Limits.{own};
ghost use Rattle.dm_named.specs.Patches.{Patch};
ghost use Rattle.dm_named.specs.declared.limits.Kinds.{Kinds as SomeKinds};
ghost use Rattle.dm_scratch.specs.Taking.{ReadsWithin};
ghost use Rattle.dm_store.specs.declared.fault.StoreError.TheVariants.{NoMemory, BadEntry};
ghost use Rattle.dm_store.specs.Entries.{whole_entry, counted_entry};
ghost use Rattle.dm_store.specs.Keeping.{HasTaken, Kept, TakesAll, TakesEntry, FoldTo, kept_as};
ghost use Rattle.dm_store.specs.Opening.{IsBadEntry, StopsFor};
ghost use Rattle.dm_store.specs.WholeEntries.{ReadsEntry};

use crate::entries::{split_entry, strip_counted, strip_whole};
use crate::fault::StoreError;
use bumpalo::Bump;
use dm_begin::{base_len, may_be_base};
use dm_bundle::{Bundle, read_bundle_within};
use dm_journal::Texts;
use dm_named::{Kinds, Limits};
use dm_repo::{Policy, Refusal, Repo};
use dm_scratch::{Verdict, take_in, take_read};
use std::alloc::{AllocError, Global};

// Whether something was taken.
pub fn has_taken(verdict: &Verdict) -> bool
    ensures { IsTrue result ↔ HasTaken verdict.now }
{
    match verdict {
        Verdict::Taken(_) => true,
        Verdict::TakenSome(_, _) => true,
        Verdict::NothingNew => false,
        Verdict::Malformed(_) => false,
        Verdict::Refused(_) => false,
    }
}

/// What the entries of a journal leave, and the arena in which they were tried.
pub struct TakenAgain {
    pub repo: Repo<Global>,
    pub base: usize,
    pub arena: Bump,
}

// The bundle of a whole repository, and how many of its patches are the base, if the entry tells.
#[derive(Drop)]
struct Whole {
    bundle: Bundle<Global>,
    count: Option<usize>,
}

// Takes the entries again. The text of a whole repository is given up, with the file's bytes, before the tree is made of it: both are as
// large as the repository.
pub fn take_again(alloc: Global, kinds: Kinds, entries: Texts) -> Result<TakenAgain, StoreError>
    ensures folds { IfOk result (λ taken. FoldTo kinds entries (kept_as taken.base taken.repo.patches)) }
    ensures stops { IfErr result (StopsFor kinds entries) }
{
    let Some(first) = entries.get(0) else {
        return Ok(TakenAgain {
            repo: Repo::new(alloc),
            base: 0,
            arena: Bump::new(alloc),
        });
    };
    let Some(whole) = read_entry(alloc, kinds, first, 0)? else {
        let texts = copy_texts(alloc, &entries, 0)?;
        drop(entries);
        return take_entries(alloc, kinds, Repo::new(alloc), 0, 0, &texts);
    };
    let texts = copy_texts(alloc, &entries, 1)?;
    drop(entries);
    let mut repo = Repo::new(alloc);
    let base = take_whole(alloc, &mut repo, whole, 0)?;
    take_entries(alloc, kinds, repo, base, 1, &texts)
}

// Copies of the entries from this number on.
fn copy_texts(alloc: Global, entries: &Texts, from: usize) -> Result<Vec<Vec<u8>>, AllocError>
    requires { from ≤ length entries.now }
    ensures { IfOk result (λ copies. map (λ text. text.items) copies.items ≡ drop from entries.now) }
{
    let mut copies = Vec::new(alloc);
    for i in from..entries.len() {
        copies.push(entries.text(i).to_vec(alloc)?)?;
    }
    Ok(copies)
}

// Takes the entries from this number on into the repository that those before it leave.
fn take_entries(
    alloc: Global,
    kinds: Kinds,
    repo: Repo<Global>,
    base: usize,
    from: usize,
    texts: &[Vec<u8>],
) -> Result<TakenAgain, StoreError>
    requires { from ≤ 1 }
    ensures folds { IfOk result (λ taken. (before : List (List ℕ)) → length before ≡ from → FoldTo kinds before (kept_as base repo.patches)
        → FoldTo kinds (before ++ map (λ text. text.items) texts.now) (kept_as taken.base taken.repo.patches)) }
    ensures stops { IfErr result (λ e. (before : List (List ℕ)) → length before ≡ from → FoldTo kinds before (kept_as base repo.patches)
        → StopsFor kinds (before ++ map (λ text. text.items) texts.now) e) }
{
    let mut repo = repo;
    let mut base = base;
    let mut arena = Bump::new(alloc);
    for i in 0..texts.len() {
        base = take_entry(
            alloc,
            &mut repo,
            base,
            &mut arena,
            kinds,
            &texts[i],
            from + i,
        )?;
    }
    Ok(TakenAgain { repo, base, arena })
}

// Takes the entry of this number. Returns the base after it.
fn take_entry(
    alloc: Global,
    repo: &mut Repo<Global>,
    base: usize,
    arena: &mut Bump,
    kinds: Kinds,
    entry: &[u8],
    number: usize,
) -> Result<usize, StoreError>
    ensures ok { IfOk result (λ after. TakesEntry kinds (kept_as base repo.old.patches) entry.now (kept_as after repo.new.patches)) }
    ensures err { IfErr result (λ e. (e ≡ NoMemory) ⊎ ((e ≡ BadEntry number) × IsBadEntry kinds (kept_as base repo.old.patches) entry.now)) }
{
    if let Some(whole) = read_entry(alloc, kinds, entry, number)? {
        return take_whole(alloc, repo, whole, number);
    }
    let Some((policy, text)) = split_entry(entry) else {
        return Err(StoreError::BadEntry(number));
    };
    let verdict = take_in(repo, arena, text, kinds, policy);
    if has_taken(&verdict) {
        return Ok(base);
    }
    Err(fault_of(verdict, number))
}

// The bundle of the entry of this number, if it is that of a whole repository.
fn read_entry(
    alloc: Global,
    kinds: Kinds,
    entry: &[u8],
    number: usize,
) -> Result<Option<Whole>, StoreError>
    ensures some { IfOk result (λ found. IfSome found (λ whole. ReadsEntry kinds entry.now whole.count whole.bundle)) }
    ensures not_whole { IfOk result (λ found. IfNone found ((text : List ℕ) → entry.now ≡ whole_entry text → ⊥)) }
    ensures not_counted { IfOk result (λ found. IfNone found ((base : ℕ) (text : List ℕ) → base < 2 ^ 64 → entry.now ≡ counted_entry base text → ⊥)) }
    ensures err { IfErr result (λ e. (e ≡ NoMemory) ⊎ ((e ≡ BadEntry number) × ((kept : Kept) → IsBadEntry kinds kept entry.now))) }
{
    if let Some(text) = strip_whole(entry) {
        let bundle = read_text(alloc, kinds, text, number)?;
        return Ok(Some(Whole {
            bundle,
            count: None,
        }));
    }
    if let Some((count, text)) = strip_counted(entry) {
        let bundle = read_text(alloc, kinds, text, number)?;
        return Ok(Some(Whole {
            bundle,
            count: Some(count),
        }));
    }
    Ok(None)
}

// The bundle of the text of a whole repository.
fn read_text(
    alloc: Global,
    kinds: Kinds,
    text: &[u8],
    number: usize,
) -> Result<Bundle<Global>, StoreError>
    ensures ok { IfOk result (λ bundle. ReadsWithin (with_kinds own kinds) text.now bundle) }
    ensures err { IfErr result (λ e. (e ≡ NoMemory) ⊎ ((e ≡ BadEntry number) × ((kept : Kept) (patches : List Patch) → TakesAll kinds kept text.now patches → ⊥))) }
{
    let limits = Limits::OWN.with_kinds(kinds);
    match read_bundle_within(alloc, text, limits) {
        Ok(bundle) => Ok(bundle),
        Err(fault) => Err(fault_of(Verdict::unread(fault), number)),
    }
}

// Takes the bundle of a whole repository. Returns the base, which its form tells, or a number.
fn take_whole(
    alloc: Global,
    repo: &mut Repo<Global>,
    whole: Whole,
    number: usize,
) -> Result<usize, StoreError>
    ensures ok { IfOk result (λ after. (kinds : SomeKinds) (base : ℕ) (entry : List ℕ) → ReadsEntry kinds entry whole.count whole.bundle
        → TakesEntry kinds (kept_as base repo.old.patches) entry (kept_as after repo.new.patches)) }
    ensures err { IfErr result (λ e. (e ≡ NoMemory) ⊎ ((e ≡ BadEntry number) × ((kinds : SomeKinds) (base : ℕ) (entry : List ℕ)
        → ReadsEntry kinds entry whole.count whole.bundle → IsBadEntry kinds (kept_as base repo.old.patches) entry))) }
{
    let Whole { bundle, count } = whole;
    take_all(alloc, repo, bundle, number)?;
    let Some(count) = count else {
        return Ok(base_len(repo.patches()));
    };
    if !may_be_base(repo.patches(), count) {
        return Err(StoreError::BadEntry(number));
    }
    Ok(count)
}

// Takes the bundle of a whole repository, where nothing was taken before it.
fn take_all(
    alloc: Global,
    repo: &mut Repo<Global>,
    bundle: Bundle<Global>,
    number: usize,
) -> Result<(), StoreError>
    ensures ok { OnOk result ((kinds : SomeKinds) (base : ℕ) (text : List ℕ) → ReadsWithin (with_kinds own kinds) text bundle
        → TakesAll kinds (kept_as base repo.old.patches) text repo.new.patches) }
    ensures err { IfErr result (λ e. (e ≡ NoMemory) ⊎ ((e ≡ BadEntry number) × ((kinds : SomeKinds) (base : ℕ) (text : List ℕ) (patches : List Patch)
        → ReadsWithin (with_kinds own kinds) text bundle → TakesAll kinds (kept_as base repo.old.patches) text patches → ⊥))) }
{
    if !repo.is_empty() {
        return Err(StoreError::BadEntry(number));
    }
    let verdict = take_read(repo, alloc, bundle, Policy::Refuse);
    if has_taken(&verdict) {
        return Ok(());
    }
    Err(fault_of(verdict, number))
}

// Why the entry of this number isn't taken, whose text has this verdict.
fn fault_of(verdict: Verdict, number: usize) -> StoreError
    ensures { ((verdict ≡ Verdict.Refused Refusal.NoMemory) × (result ≡ NoMemory)) ⊎
        ((verdict ≢ Verdict.Refused Refusal.NoMemory) × (result ≡ BadEntry number)) }
{
    if verdict == Verdict::Refused(Refusal::NoMemory) {
        return StoreError::NoMemory;
    }
    StoreError::BadEntry(number)
}
