//! Why a replace can't pass another change of its file: which token stands in which line.
ghost use Rattle.std.specs.Prelude.{◌≡◌, ◌↔◌, IsTrue, MatchOption};
ghost use Rattle.dm_prim.specs.Applying.{HasNewToken};
ghost use Rattle.dm_prim.specs.Table.{ShareNoToken};
ghost use Rattle.dm_explain.specs.Tokens.{IsEither};

use crate::account::Clashing;
use crate::shown::Shown;
use dm_prim::{Hunk, MOST_PASSED, Prim, Replace};
use dm_tokens::{Tokens, Turned, turns};
use dm_tree::Lines;
use std::alloc::Global;
use std::fmt::{self, Formatter, Write};

/// The first of the lines that a replace doesn't turn, since its new token, which isn't the old one, stands there.
fn line_that_stays<'l>(lines: &'l Lines<Global>, tokens: &Tokens<Global>) -> Option<&'l [u8]>
    ensures { MatchOption result
        (HasNewToken tokens.now.set tokens.now.old tokens.now.new lines.now → ⊥)
        (λ line. (stays : HasNewToken tokens.now.set tokens.now.old tokens.now.new lines.now) × (stays.line ≡ line.now)) }
{
    let set = tokens.token_set();
    for i in 0..lines.len() {
        let line = lines.line(i);
        match turns(&set, tokens.old(), tokens.new_token(), line) {
            Turned::Nothing => return Some(line),
            _ => {}
        }
    }
    None
}

/// Writes why a hunk and a replace of its file can't pass each other: which line the replace doesn't turn. Where it turns all, they
/// are too large, or the patches have passed others before.
fn write_hunk_and_replace<W: Write>(
    f: &mut Formatter<W>,
    hunk: &Hunk<Global>,
    replace: &Replace<Global>,
) -> fmt::Result {
    if let Some(text) = line_that_stays(hunk.old(), replace.tokens()) {
        let line = Shown { text };
        return writeln!(
            f,
            "The new token stands in a line that the hunk removes:\n  {line}"
        );
    }
    if let Some(text) = line_that_stays(hunk.new_lines(), replace.tokens()) {
        let line = Shown { text };
        return writeln!(
            f,
            "The new token stands in a line that the hunk adds:\n  {line}"
        );
    }
    writeln!(
        f,
        "The hunk's old or new lines have more than {MOST_PASSED} bytes, or would have, or another replace puts the new token there."
    )
}

/// Whether this is one of the two tokens.
fn is_either(token: &[u8], tokens: &Tokens<Global>) -> bool
    ensures { IsTrue result ↔ IsEither token.now tokens.now }
{
    if token == tokens.old() {
        return true;
    }
    token == tokens.new_token()
}

/// A token that both replaces have.
fn common_token<'t>(one: &'t Replace<Global>, other: &Replace<Global>) -> Option<&'t [u8]>
    ensures { MatchOption result
        (ShareNoToken one.now.words.old one.now.words.new other.now.words.old other.now.words.new)
        (λ token. IsEither token.now one.now.words × IsEither token.now other.now.words) }
{
    let tokens = one.tokens();
    if is_either(tokens.old(), other.tokens()) {
        return Some(tokens.old());
    }
    if is_either(tokens.new_token(), other.tokens()) {
        return Some(tokens.new_token());
    }
    None
}

/// Writes why two replaces of one file can't pass each other: they have a token in common, or their sets have two texts.
fn write_replaces<W: Write>(
    f: &mut Formatter<W>,
    one: &Replace<Global>,
    other: &Replace<Global>,
) -> fmt::Result {
    if let Some(text) = common_token(one, other) {
        return writeln!(f, "Both have the token {}.", Shown { text });
    }
    f.write_str("Their sets of token bytes differ.\n")
}

/// Writes why a replace can't pass another change of its file; nothing where there is no replace, or no such change.
pub(crate) fn write_passing<W: Write>(f: &mut Formatter<W>, pair: &Clashing<'_>) -> fmt::Result {
    match (pair.new, pair.held) {
        (Prim::Hunk(hunk), Prim::Replace(replace)) => write_hunk_and_replace(f, hunk, replace),
        (Prim::Replace(replace), Prim::Hunk(hunk)) => write_hunk_and_replace(f, hunk, replace),
        (Prim::Replace(new), Prim::Replace(held)) => write_replaces(f, new, held),
        _ => Ok(()),
    }
}
