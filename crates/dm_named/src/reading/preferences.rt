//! The text of changes of preferences after their word.

ghost use Rattle.std.specs.Prelude.{◌≡◌, ◌≤◌, ℕ, List, length, drop, IfSome, IfNone, IfOk, IfErr};
ghost use Rattle.dm_prim.specs.Commuting.{IsPreference};
ghost use Rattle.dm_named.specs.Words.{skipped};
ghost use Rattle.dm_named.specs.Preferences.{WholeLine, PreferenceLines};
ghost use Rattle.dm_named.specs.Faults.{PreferenceFaultAt};

use crate::fault::{FaultKind, ReadFault};
use crate::reading::numbers::is_blank;
use crate::text::{line_at, skip, word_at};
use dm_prim::{BadPreference, Preference};
use std::alloc::{AllocError, Allocator};

/// The line at a place, if a newline ends it, and the place after the newline.
fn whole_line_at(text: &[u8], at: usize) -> Option<(&[u8], usize)>
    requires { at ≤ length text.now }
    ensures found { IfSome result (λ x. WholeLine (drop at text.now) x.0.now (drop x.1 text.now)) }
    ensures none { IfNone result ((line rest : List ℕ) → WholeLine (drop at text.now) line rest → ⊥) }
    ensures within { IfSome result (λ x. x.1 ≤ length text.now) }
    ensures forward { IfSome result (λ x. at ≤ x.1) }
{
    let (line, next) = line_at(text, at);
    if line.len() == text.len() - at {
        return None;
    }
    Some((line, next))
}

/// The name at a place, which is alone on its line, the lines of the old and of the new value, and the place after these.
fn values_at(text: &[u8], at: usize) -> Option<(&[u8], &[u8], &[u8], usize)>
    requires { at ≤ length text.now }
    ensures found { IfSome result (λ x. PreferenceLines (drop at text.now) x.0.now x.1.now x.2.now (drop x.3 text.now)) }
    ensures none { IfNone result ((name old new rest : List ℕ) → PreferenceLines (drop at text.now) name old new rest → ⊥) }
    ensures within { IfSome result (λ x. x.3 ≤ length text.now) }
    ensures forward { IfSome result (λ x. at ≤ x.3) }
{
    let (name, after) = word_at(text, at);
    if name.is_empty() {
        return None;
    }
    let (blank, olds) = whole_line_at(text, after)?;
    if !is_blank(blank) {
        return None;
    }
    let (old, news) = whole_line_at(text, olds)?;
    let (new, end) = line_at(text, news);
    Some((name, old, new, end))
}

/// The change of a preference with these parts.
fn change_of<A: Allocator + Copy>(
    alloc: A,
    name: &[u8],
    old: &[u8],
    new: &[u8],
) -> Result<Preference<A>, AllocError>
    requires { IsPreference name.now old.now new.now }
    ensures { IfOk result (λ c. c ≡ record { name = name.now; old = old.now; new = new.now }) }
{
    let name = Vec::from_slice(alloc, name)?;
    let old = Vec::from_slice(alloc, old)?;
    let new = Vec::from_slice(alloc, new)?;
    match Preference::new(name, old, new) {
        Ok(change) => Ok(change),
        Err(BadPreference) => unreachable!(),
    }
}

/// A change of a preference, read from after its word, and the place after it.
pub(crate) fn preference_at<A: Allocator + Copy>(
    alloc: A,
    text: &[u8],
    at: usize,
) -> Result<(Preference<A>, usize), ReadFault>
    requires { at ≤ length text.now }
    ensures ok { IfOk result (λ x. PreferenceLines (skipped (drop at text.now)) x.0.name x.0.old x.0.new (drop x.1 text.now)) }
    ensures within { IfOk result (λ x. x.1 ≤ length text.now) }
    ensures forward { IfOk result (λ x. at ≤ x.1) }
    ensures err { IfErr result (λ e. PreferenceFaultAt e.kind (drop at text.now) (drop e.at text.now)) }
    ensures place { IfErr result (λ e. e.at ≤ length text.now) }
{
    let here = skip(text, at);
    let Some((name, old, new, end)) = values_at(text, here) else {
        return Err(ReadFault {
            kind: FaultKind::BadPreference,
            at: here,
        });
    };
    match change_of(alloc, name, old, new) {
        Ok(change) => Ok((change, end)),
        Err(e) => Err(ReadFault::no_memory(e, here)),
    }
}
