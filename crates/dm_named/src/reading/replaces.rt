//! The text of replaces after their path.

ghost use Rattle.std.specs.Prelude.{◌≡◌, ◌≤◌, ℕ, List, length, drop, IfOk, IfErr, IfSome, IfNone, MatchOption};
ghost use Rattle.dm_tokens.specs.Validity.{TokenWords, AreTokens};
ghost use Rattle.dm_named.specs.Words.{skipped};
ghost use Rattle.dm_named.specs.Replaces.{bracketed, TokensText};
ghost use Rattle.dm_named.specs.Faults.{ReplaceFaultAt};

use crate::fault::{FaultKind, ReadFault};
use crate::text::{skip, word_at};
use dm_prim::Replace;
use dm_tokens::{BadTokens, Tokens};
use dm_tree::Path;
use std::alloc::{AllocError, Allocator};

/// The text of the set that this word has in brackets.
fn set_in(word: &[u8]) -> Option<&[u8]>
    ensures { MatchOption result ((set : List ℕ) → word.now ≡ bracketed set → ⊥) (λ set. word.now ≡ bracketed set.now) }
{
    match word {
        [b'[', set @ .., b']'] => Some(set),
        _ => None,
    }
}

/// The tokens of these words, if they are valid.
fn tokens_of<A: Allocator + Copy>(
    alloc: A,
    set: &[u8],
    old: &[u8],
    new: &[u8],
) -> Result<Option<Tokens<A>>, AllocError>
    ensures found { IfOk result (λ r. IfSome r (λ t. (t ≡ record { set = set.now; old = old.now; new = new.now }) × AreTokens t)) }
    ensures none { IfOk result (λ r. IfNone r (AreTokens (record { set = set.now; old = old.now; new = new.now }) → ⊥)) }
{
    let set = Vec::from_slice(alloc, set)?;
    let old = Vec::from_slice(alloc, old)?;
    let new = Vec::from_slice(alloc, new)?;
    match Tokens::new(set, old, new) {
        Ok(tokens) => Ok(Some(tokens)),
        Err(BadTokens) => Ok(None),
    }
}

/// The set at a place and the tokens after it, if they stand there, and the place after them.
fn tokens_at<A: Allocator + Copy>(
    alloc: A,
    text: &[u8],
    at: usize,
) -> Result<Option<(Tokens<A>, usize)>, AllocError>
    requires { at ≤ length text.now }
    ensures found { IfOk result (λ r. IfSome r (λ x. TokensText (drop at text.now) x.0 (drop x.1 text.now))) }
    ensures none { IfOk result (λ r. IfNone r ((words : TokenWords) (rest : List ℕ) → TokensText (drop at text.now) words rest → ⊥)) }
    ensures within { IfOk result (λ r. IfSome r (λ x. x.1 ≤ length text.now)) }
    ensures forward { IfOk result (λ r. IfSome r (λ x. at ≤ x.1)) }
{
    let (word, olds) = word_at(text, at);
    let Some(set) = set_in(word) else {
        return Ok(None);
    };
    let (old, news) = word_at(text, skip(text, olds));
    let (new, end) = word_at(text, skip(text, news));
    match tokens_of(alloc, set, old, new)? {
        Some(tokens) => Ok(Some((tokens, end))),
        None => Ok(None),
    }
}

/// A replace, read from after its path, and the place after it.
pub(crate) fn replace_at<A: Allocator + Copy>(
    alloc: A,
    path: Path<A>,
    text: &[u8],
    at: usize,
) -> Result<(Replace<A>, usize), ReadFault>
    requires { at ≤ length text.now }
    ensures ok { IfOk result (λ x. TokensText (skipped (drop at text.now)) x.0.words (drop x.1 text.now)) }
    ensures path { IfOk result (λ x. x.0.path ≡ path) }
    ensures within { IfOk result (λ x. x.1 ≤ length text.now) }
    ensures forward { IfOk result (λ x. at ≤ x.1) }
    ensures err { IfErr result (λ e. ReplaceFaultAt e.kind (drop at text.now) (drop e.at text.now)) }
    ensures place { IfErr result (λ e. e.at ≤ length text.now) }
{
    let here = skip(text, at);
    match tokens_at(alloc, text, here) {
        Ok(Some((tokens, end))) => Ok((Replace::new(path, tokens), end)),
        Ok(None) => Err(ReadFault {
            kind: FaultKind::BadTokens,
            at: here,
        }),
        Err(e) => Err(ReadFault::no_memory(e, here)),
    }
}
