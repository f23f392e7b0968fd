//! The pieces of a text: by turns bytes of a set and bytes outside of it.
ghost use Rattle.std.specs.Prelude.{◌≡◌, ◌↔◌, ◌<◌, ◌≤◌, ◌∷◌, ℕ, length, take, drop, IsTrue};
ghost use Rattle.dm_tokens.specs.Sets.{in_table};
ghost use Rattle.dm_tokens.specs.Pieces.{HasPiece};
ghost use Rattle.dm_tokens.specs.Walks.{pieces_of};

use crate::set::TokenSet;

/// Whether a text has such a piece. A token stands in a text where it is a piece of it: not in the middle of a longer one.
pub fn has_piece(set: &TokenSet, text: &[u8], piece: &[u8]) -> bool
    ensures { IsTrue result ↔ HasPiece (in_table set.now) text.now piece.now }
{
    let mut rest = text;
    while !rest.is_empty() {
        let len = first_len(set, rest);
        if piece == &rest[..len] {
            return true;
        }
        rest = &rest[len..];
    }
    false
}

/// The count of bytes of the first piece.
pub(crate) fn first_len(set: &TokenSet, text: &[u8]) -> usize
    requires { 0 < length text.now }
    ensures some { 0 < result }
    ensures within { result ≤ length text.now }
    ensures piece { pieces_of (in_table set.now) text.now ≡ take result text.now ∷ pieces_of (in_table set.now) (drop result text.now) }
{
    let inside = set.contains(text[0]);
    for i in 1..text.len() {
        if set.contains(text[i]) != inside {
            return i;
        }
    }
    text.len()
}
