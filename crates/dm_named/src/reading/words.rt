//! The words where a primitive may begin.

ghost use Rattle.std.specs.Prelude.{◌≡◌, ◌≢◌, ◌≤◌, ◌<◌, length, drop, IfSome, IfNone, MatchBool, MatchOption};
ghost use Rattle.dm_named.specs.Words.{skipped, Word, Among, WordAmong};
ghost use Rattle.dm_named.specs.Patches.{prim_words_of, refused_words};
ghost use Rattle.dm_named.specs.Faults.{path_words};
ghost use Rattle.dm_named.specs.MergedFaults.{item_words_of};
ghost use Rattle.dm_named.specs.BodyWords.{path_word_of, word_of, IsOneWider, IsBodyWord, item_word_of, IsItemWord};

use crate::limits::Kinds;
use crate::text::{skip, word_at};

/// The word of a primitive with a path.
#[derive(Clone, Copy)]
pub(crate) enum AtPath {
    AddFile,
    RmFile,
    AddDir,
    RmDir,
    Move,
    Hunk,
    Binary,
    Replace,
}

/// The word of a primitive.
#[derive(Clone, Copy)]
pub(crate) enum PrimWord {
    AtPath(AtPath),
    ChangePref,
}

/// What a word is where a primitive may begin.
#[derive(Clone, Copy)]
pub(crate) enum BodyWord {
    /// The word of a primitive.
    Prim(PrimWord),
    /// The word of a patch that this profile refuses.
    Unsupported,
    /// Any other.
    Other,
}

/// The word of an item of a body.
#[derive(Clone, Copy)]
pub(crate) enum ItemWord {
    Prim(PrimWord),
    Conflictor,
}

/// Whether two words are one.
pub(crate) fn same(word: &[u8], other: &[u8]) -> bool
    ensures { MatchBool result (word.now ≡ other.now) (word.now ≢ other.now) }
{
    word == other
}

/// Whether this is the word of a patch that is refused, whichever kinds of primitives are read.
fn is_refused(word: &[u8]) -> bool
    ensures { MatchBool result (Among refused_words word.now) (Among refused_words word.now → ⊥) }
{
    same(word, b"merger")
        || same(word, b"regrem")
        || same(word, b"conflictor")
        || same(word, b"rotcilfnoc")
        || same(word, b"duplicate")
        || same(word, b"etacilpud")
}

/// The primitive with a path that has this word.
fn at_path(word: &[u8]) -> Option<AtPath>
    ensures { MatchOption result (Among path_words word.now → ⊥) (λ found. word.now ≡ path_word_of found) }
{
    if same(word, b"addfile") {
        return Some(AtPath::AddFile);
    }
    if same(word, b"rmfile") {
        return Some(AtPath::RmFile);
    }
    if same(word, b"adddir") {
        return Some(AtPath::AddDir);
    }
    if same(word, b"rmdir") {
        return Some(AtPath::RmDir);
    }
    if same(word, b"move") {
        return Some(AtPath::Move);
    }
    if same(word, b"hunk") {
        return Some(AtPath::Hunk);
    }
    if same(word, b"binary") {
        return Some(AtPath::Binary);
    }
    if same(word, b"replace") {
        return Some(AtPath::Replace);
    }
    None
}

/// The primitive that has this word.
fn prim_word(word: &[u8]) -> Option<PrimWord>
    ensures { MatchOption result (Among (prim_words_of Kinds.All) word.now → ⊥) (λ found. word.now ≡ word_of found) }
{
    if same(word, b"changepref") {
        return Some(PrimWord::ChangePref);
    }
    match at_path(word) {
        Some(found) => Some(PrimWord::AtPath(found)),
        None => None,
    }
}

/// Whether a primitive is of these kinds.
fn is_of(word: PrimWord, kinds: Kinds) -> bool
    ensures { MatchBool result (Among (prim_words_of kinds) (word_of word)) (IsOneWider kinds (word_of word)) }
{
    match kinds {
        Kinds::All => true,
        Kinds::Six => match word {
            PrimWord::AtPath(AtPath::Binary) => false,
            PrimWord::AtPath(AtPath::Replace) => false,
            PrimWord::AtPath(_) => true,
            PrimWord::ChangePref => false,
        },
    }
}

/// Tells what a word is where a primitive of these kinds may begin.
pub(crate) fn body_word(word: &[u8], kinds: Kinds) -> BodyWord
    ensures { IsBodyWord kinds word.now result }
{
    if let Some(found) = prim_word(word) {
        if is_of(found, kinds) {
            return BodyWord::Prim(found);
        }
        return BodyWord::Unsupported;
    }
    if is_refused(word) {
        return BodyWord::Unsupported;
    }
    BodyWord::Other
}

/// The word of a primitive of these kinds after white space, its place, and the place after it; none if there is another word.
pub(crate) fn prim_word_at(text: &[u8], at: usize, kinds: Kinds) -> Option<(PrimWord, usize, usize)>
    requires { at ≤ length text.now }
    ensures word { IfSome result (λ x. Word (drop x.1 text.now) (word_of x.0) (drop x.2 text.now)) }
    ensures of_kinds { IfSome result (λ x. Among (prim_words_of kinds) (word_of x.0)) }
    ensures here { IfSome result (λ x. drop x.1 text.now ≡ skipped (drop at text.now)) }
    ensures within { IfSome result (λ x. x.2 ≤ length text.now) }
    ensures forward { IfSome result (λ x. at < x.2) }
    ensures before { IfSome result (λ x. x.1 ≤ x.2) }
    ensures none { IfNone result (WordAmong (prim_words_of kinds) (skipped (drop at text.now)) → ⊥) }
{
    let here = skip(text, at);
    let (word, next) = word_at(text, here);
    match body_word(word, kinds) {
        BodyWord::Prim(found) => Some((found, here, next)),
        BodyWord::Unsupported => None,
        BodyWord::Other => None,
    }
}

/// The word of an item after white space, its place, and the place after it; none if there is another word.
pub(crate) fn item_word_at(text: &[u8], at: usize, kinds: Kinds) -> Option<(ItemWord, usize, usize)>
    requires { at ≤ length text.now }
    ensures word { IfSome result (λ x. Word (drop x.1 text.now) (item_word_of x.0) (drop x.2 text.now)) }
    ensures of_kinds { IfSome result (λ x. IsItemWord kinds x.0) }
    ensures here { IfSome result (λ x. drop x.1 text.now ≡ skipped (drop at text.now)) }
    ensures within { IfSome result (λ x. x.2 ≤ length text.now) }
    ensures forward { IfSome result (λ x. at < x.2) }
    ensures before { IfSome result (λ x. x.1 ≤ x.2) }
    ensures none { IfNone result (WordAmong (item_words_of kinds) (skipped (drop at text.now)) → ⊥) }
{
    let here = skip(text, at);
    let (word, next) = word_at(text, here);
    if same(word, b"conflictor") {
        return Some((ItemWord::Conflictor, here, next));
    }
    match body_word(word, kinds) {
        BodyWord::Prim(found) => Some((ItemWord::Prim(found), here, next)),
        BodyWord::Unsupported => None,
        BodyWord::Other => None,
    }
}
