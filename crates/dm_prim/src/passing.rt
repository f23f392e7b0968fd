//! What the lines of a hunk turn to as it passes a replace.
ghost use Rattle.std.specs.Prelude.{◌≡◌, ◌≤◌, ◌<◌, IfOk, MatchOption, false};
ghost use Rattle.dm_tree.specs.Trees.{Lines as TreeLines};
ghost use Rattle.dm_tokens.specs.Pieces.{IsToken};
ghost use Rattle.dm_tokens.specs.Sets.{in_table};
ghost use Rattle.dm_tokens.specs.Turning.{TurnAll};
ghost use Rattle.dm_prim.specs.Table.{TurnsPart, lines_size, most_passed};
ghost use Rattle.dm_prim.specs.Turning.{LinesTurnAs};

use dm_tokens::{TokenSet, Tokens, Turned, room_after, turn_into, turns};
use dm_tree::Lines;
use std::alloc::{AllocError, Allocator};

/// The old lines of a hunk that passes a replace, and its new ones, have at most so many bytes, before and after, each with a newline: a new
/// token may be made of old ones of the next replace. It bounds one hunk, and not what all hunks of a bundle take.
pub const MOST_PASSED: usize = 65_536;

/// What the old or the new lines of a hunk turn to; none where one of them doesn't turn, or they are too large. Where each stays as it is
/// they come back.
pub(crate) fn turn_part<A: Allocator + Copy, B: Allocator>(
    alloc: A,
    lines: Lines<A>,
    tokens: &Tokens<B>,
) -> Result<Option<Lines<A>>, AllocError>
    ensures { IfOk result (λ answer. MatchOption answer
        ((ls : TreeLines) → TurnsPart tokens.now.set tokens.now.old tokens.now.new lines ls → ⊥)
        (TurnsPart tokens.now.set tokens.now.old tokens.now.new lines)) }
{
    if lines.size() as u128 + lines.len() as u128 > MOST_PASSED as u128 {
        return Ok(None);
    }
    let set = tokens.token_set();
    match part_turns(&lines, &set, tokens.old(), tokens.new_token()) {
        Turned::Same => Ok(Some(lines)),
        Turned::Nothing => Ok(None),
        Turned::Other => {
            let Some(room) = part_room(&lines, &set, tokens.old(), tokens.new_token()) else {
                return Ok(None);
            };
            let turned = turn_each_of(alloc, &lines, &set, tokens.old(), tokens.new_token(), room)?;
            Ok(Some(turned))
        }
    }
}

/// What the lines turn to.
fn part_turns<A: Allocator>(lines: &Lines<A>, set: &TokenSet, old: &[u8], new: &[u8]) -> Turned
    ensures { LinesTurnAs (in_table set.now) old.now new.now lines.now result }
{
    let mut turned = Turned::Same;
    for i in 0..lines.len() {
        match turns(set, old, new, lines.line(i)) {
            Turned::Same => {}
            Turned::Other => turned = Turned::Other,
            Turned::Nothing => return Turned::Nothing,
        }
    }
    turned
}

/// How many bytes the turned lines have at most; none where they are too large. No line is written.
fn part_room<A: Allocator>(
    lines: &Lines<A>,
    set: &TokenSet,
    old: &[u8],
    new: &[u8],
) -> Option<usize>
    ensures { MatchOption result
        ((ls : TreeLines) → TurnAll (in_table set.now) old.now new.now lines.now ls → most_passed < lines_size ls)
        (λ _. (ls : TreeLines) → TurnAll (in_table set.now) old.now new.now lines.now ls → lines_size ls ≤ most_passed) }
{
    let mut room = MOST_PASSED;
    for i in 0..lines.len() {
        let Some(left) = room_after(set, old, new, lines.line(i), room) else {
            return None;
        };
        if left == 0 {
            return None;
        }
        room = left - 1;
    }
    Some(MOST_PASSED.saturating_sub(room))
}

/// The turned lines, of lines that turn. They get room for so many bytes at once, since an arena takes none back.
fn turn_each_of<A: Allocator + Copy>(
    alloc: A,
    lines: &Lines<A>,
    set: &TokenSet,
    old: &[u8],
    new: &[u8],
    room: usize,
) -> Result<Lines<A>, AllocError>
    requires turn { (ls : TreeLines) × TurnAll (in_table set.now) old.now new.now lines.now ls }
    requires no_newline { in_table set.now 10 ≡ false }
    requires token { IsToken (in_table set.now) new.now }
    ensures { IfOk result (λ turned. TurnAll (in_table set.now) old.now new.now lines.now turned) }
{
    let mut turned = Lines::with_room(alloc, lines.len(), room)?;
    let mut text = Vec::new(alloc);
    for i in 0..lines.len() {
        text.clear();
        if !turn_into(set, old, new, lines.line(i), &mut text)? {
            unreachable!()
        }
        turned.push_plain(&text)?;
    }
    Ok(turned)
}
