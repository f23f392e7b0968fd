//! Tokens as a patch names them.
ghost use Rattle.std.specs.Prelude.{◌≡◌, ◌↔◌, ◌<◌, false, Some, IfOk, IsTrue};
ghost use Rattle.dm_tokens.specs.Sets.{in_table, set_of};
ghost use Rattle.dm_tokens.specs.Validity.{AreOfSet, AreTokens, IsWordPart, MakesTokens, is_space};

use crate::set::TokenSet;
use std::alloc::{AllocError, Allocator};
use std::marker::Model;
use thiserror::Error;

/// A set without the newline, and two tokens of it, of which the new one is to stand in place of the old one. Each is at most 255
/// bytes below 128, and none of these is a space.
#[derive(Drop)]
pub struct Tokens<A: Allocator> {
    set: Vec<u8, A>,
    old: Vec<u8, A>,
    new: Vec<u8, A>,
}

impl<A: Allocator> Model for Tokens<A> {
    ghost use Rattle.dm_tokens.specs.Validity.{AreTokens, TokenWords};

    ghost Value = { TokenWords };

    ghost view = { λ t. record { set = t.set.items; old = t.old.items; new = t.new.items } };

    ghost invariant = { λ t. AreTokens (record { set = t.set.items; old = t.old.items; new = t.new.items }) };
}

/// The words are no set and no tokens that a patch may name.
#[derive(Clone, Copy, Debug, PartialEq, Eq, Error)]
#[error("the text means no set without the newline, a token has other bytes than the set, or a word is longer than 255 bytes or isn't plain ASCII")]
pub struct BadTokens;

impl<A: Allocator> Tokens<A> {
    /// Tokens of these words, which are given up where they are refused. The set is its text without the brackets.
    pub fn new(set: Vec<u8, A>, old: Vec<u8, A>, new: Vec<u8, A>) -> Result<Tokens<A>, BadTokens>
        ensures { MakesTokens (record { set = set.items; old = old.items; new = new.items }) result }
    {
        if !are_tokens(&set, &old, &new) {
            return Err(BadTokens);
        }
        Ok(Tokens { set, old, new })
    }

    /// The text of the set, without the brackets.
    pub fn set_text(&self) -> &[u8]
        ensures value { result.now ≡ self.now.set }
        ensures valid { AreTokens self.now }
    {
        self.set.as_slice()
    }

    /// The token that becomes another one.
    pub fn old(&self) -> &[u8]
        ensures { result.now ≡ self.now.old }
    {
        self.old.as_slice()
    }

    /// The token that it becomes.
    pub fn new_token(&self) -> &[u8]
        ensures { result.now ≡ self.now.new }
    {
        self.new.as_slice()
    }

    /// The set. It is read anew: keep it for all lines of a file.
    pub fn token_set(&self) -> TokenSet
        ensures set { set_of self.now.set ≡ Some (in_table result) }
        ensures valid { AreTokens self.now }
    {
        let Some(set) = TokenSet::read(&self.set) else {
            unreachable!()
        };
        set
    }

    /// The same tokens with another allocator.
    pub fn copy_into<B: Allocator + Copy>(&self, alloc: B) -> Result<Tokens<B>, AllocError>
        ensures { IfOk result (λ copy. copy ≡ self.now) }
    {
        let set = Vec::from_slice(alloc, &self.set)?;
        let old = Vec::from_slice(alloc, &self.old)?;
        let new = Vec::from_slice(alloc, &self.new)?;
        Ok(Tokens { set, old, new })
    }

    /// The tokens for the way back: old and new exchanged.
    pub fn inverse(self) -> Tokens<A>
        ensures { result ≡ record self { old = self.new; new = self.old } }
    {
        Tokens {
            set: self.set,
            old: self.new,
            new: self.old,
        }
    }
}

/// Whether these words are tokens, with the text of their set.
fn are_tokens(set: &[u8], old: &[u8], new: &[u8]) -> bool
    ensures { IsTrue result ↔ AreTokens (record { set = set.now; old = old.now; new = new.now }) }
{
    if !is_word_part(set) {
        return false;
    }
    if !is_word_part(old) {
        return false;
    }
    if !is_word_part(new) {
        return false;
    }
    are_of_set(set, old, new)
}

/// Whether a text means a set without the newline, of which both are tokens.
fn are_of_set(text: &[u8], old: &[u8], new: &[u8]) -> bool
    ensures { IsTrue result ↔ AreOfSet text.now old.now new.now }
{
    let Some(set) = TokenSet::read(text) else {
        return false;
    };
    if set.contains(b'\n') {
        return false;
    }
    if !set.is_token(old) {
        return false;
    }
    set.is_token(new)
}

/// Whether the bytes may stand in a word: at most 255 of them, each below 128 and no space.
fn is_word_part(bytes: &[u8]) -> bool
    ensures { IsTrue result ↔ IsWordPart bytes.now }
{
    if bytes.len() > 255 {
        return false;
    }
    bytes.iter().all(|byte| may_stand(*byte))
}

/// Whether a byte is below 128 and no space.
fn may_stand(byte: u8) -> bool
    ensures { IsTrue result ↔ ((byte < 128) × (is_space byte ≡ false)) }
{
    byte < 128 && !matches!(byte, 9..=13 | 32)
}
