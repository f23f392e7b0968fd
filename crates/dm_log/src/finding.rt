//! Which patch a word of the command line names.
ghost use Rattle.std.specs.Prelude.{◌≡◌, ◌↔◌, ◌++◌, ◌∷◌, ℕ, List, IfOk, IfSome, IfNone, IsTrue};
ghost use Rattle.dm_bundle.specs.Patches.{infos_of};
ghost use Rattle.dm_log.specs.Finding.{BeginsHash, Finds, IsHashAndName, Names, NamesHere, found_with, hash_text, is_place};

use crate::date::are_digits;
use crate::entry::{hash_of, push_hex};
use dm_info::Info;
use dm_repo::Repo;
use std::alloc::{AllocError, Allocator, Global};

/// The fewest digits of a hash that name a patch.
const FEWEST_DIGITS: usize = 7;

/// Which patches a word names.
#[derive(Clone, Copy, Debug, PartialEq, Eq)]
pub enum Found {
    Nothing,
    /// One alone, at this place.
    One(usize),
    /// Two at least: the places of the first two.
    Several(usize, usize),
}

/// The hash by which Darcs names a patch, in digits.
pub fn hash_text<A: Allocator>(alloc: Global, info: &Info<A>) -> Result<Vec<u8>, AllocError>
    ensures { IfOk result (λ text. text.items ≡ hash_text info.now) }
{
    let mut text = Vec::with_capacity(alloc, 40)?;
    push_hex(&hash_of(info), &mut text)?;
    Ok(text)
}

/// Whether these are the first digits of a patch's hash, enough of them.
fn begins_hash<A: Allocator>(
    alloc: Global,
    digits: &[u8],
    info: &Info<A>,
) -> Result<bool, AllocError>
    ensures { IfOk result (λ yes. IsTrue yes ↔ BeginsHash digits.now info.now) }
{
    if digits.len() < FEWEST_DIGITS {
        return Ok(false);
    }
    let hash = hash_text(alloc, info)?;
    Ok(hash.starts_with(digits))
}

/// What stands before a space and the name at the end of a word.
fn front_of<'a>(word: &'a [u8], name: &[u8]) -> Option<&'a [u8]>
    ensures some { IfSome result (λ front. word.now ≡ front.now ++ 32 ∷ name.now) }
    ensures none { IfNone result ((front : List ℕ) → word.now ≡ front ++ 32 ∷ name.now → ⊥) }
{
    let before = word.strip_suffix(name)?;
    before.strip_suffix(b" ")
}

/// Whether a word is the first digits of a patch's hash, a space, and its name.
fn is_hash_and_name<A: Allocator>(
    alloc: Global,
    word: &[u8],
    info: &Info<A>,
) -> Result<bool, AllocError>
    ensures { IfOk result (λ yes. IsTrue yes ↔ IsHashAndName word.now info.now) }
{
    let Some(front) = front_of(word, info.name()) else {
        return Ok(false);
    };
    begins_hash(alloc, front, info)
}

/// Whether a word is the name of a patch, or the first digits of its hash, or these and the name.
fn names<A: Allocator>(alloc: Global, word: &[u8], info: &Info<A>) -> Result<bool, AllocError>
    ensures { IfOk result (λ yes. IsTrue yes ↔ Names word.now info.now) }
{
    if word == info.name() {
        return Ok(true);
    }
    if begins_hash(alloc, word, info)? {
        return Ok(true);
    }
    is_hash_and_name(alloc, word, info)
}

/// Whether a word is a hash mark and digits.
fn is_place(word: &[u8]) -> bool
    ensures { result ≡ is_place word.now }
{
    word.starts_with(b"#") && word.len() > 1 && are_digits(&word[1..])
}

/// Whether a word names the patch of this place, counted from 1.
fn names_at<A: Allocator>(
    alloc: Global,
    word: &[u8],
    place: usize,
    info: &Info<A>,
) -> Result<bool, AllocError>
    ensures { IfOk result (λ yes. IsTrue yes ↔ NamesHere word.now place info.now) }
{
    if is_place(word) {
        let text = format!(in alloc; "#{place}")?;
        return Ok(word == text.as_bytes());
    }
    names(alloc, word, info)
}

/// What was found, with the patch at the next place, which a word names or not.
fn with_next(found: Found, place: usize, is_named: bool) -> Found
    ensures { result ≡ found_with found place is_named }
{
    if !is_named {
        return found;
    }
    match found {
        Found::Nothing => Found::One(place),
        Found::One(first) => Found::Several(first, place),
        Found::Several(_, _) => found,
    }
}

/// Which patches of a repository a word names.
///
/// A word such as `#3` names the patch at that place, and no other, whatever patches are called. Any other word names those whose
/// name it is, those whose hash, as [`write_log`](crate::write_log) prints it, begins with it, if it has seven digits at least, and
/// those with such a hash and such a name where it is both, with a space between them.
pub fn find_patch<A: Allocator>(
    alloc: Global,
    repo: &Repo<A>,
    word: &[u8],
) -> Result<Found, AllocError>
    ensures { IfOk result (Finds (infos_of repo.now.patches) word.now) }
{
    let mut found = Found::Nothing;
    for k in 0..repo.len() {
        let is_named = names_at(alloc, word, k + 1, repo.patch(k).info())?;
        found = with_next(found, k, is_named);
    }
    Ok(found)
}
