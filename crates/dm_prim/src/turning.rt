//! What the lines of a file turn to.
ghost use Rattle.std.specs.Prelude.{◌≡◌, ◌++◌, ◌≤◌, ◌<◌, IfErr, IfNone, IfOk, IfSome, MatchOption, false, length};
ghost use Rattle.dm_tree.specs.Listings.{file_size};
ghost use Rattle.dm_tree.specs.Trees.{Lines as TreeLines};
ghost use Rattle.dm_tokens.specs.Pieces.{IsToken};
ghost use Rattle.dm_tokens.specs.Sets.{in_table};
ghost use Rattle.dm_tokens.specs.Turning.{TurnAll};
ghost use Rattle.dm_prim.specs.Limits.{most_turned};
ghost use Rattle.dm_prim.specs.Turning.{FailsToTurn, LinesTurnAs, TurnsBy};

use dm_tokens::{TokenSet, Tokens, Turned, room_after, turn_into, turns};
use dm_tree::{FileRef, Lines, TreeFault};
use std::alloc::{AllocError, Allocator};

/// A file in which tokens are replaced has at most so many bytes, before and after. So no replace of a short text makes a large file: a
/// new token may be made of old ones of the next replace.
pub const MOST_TURNED: usize = 1_048_576;

/// All lines of a file, and what they turn to.
#[derive(Drop)]
pub(crate) struct TurnedFile<A: Allocator> {
    pub(crate) old: Lines<A>,
    pub(crate) new: Lines<A>,
}

/// What the lines of a file turn to; none where each stays as it is. All are read before one is
/// copied, and nothing is copied of a file that would be too large.
pub(crate) fn turn_lines<A: Allocator + Copy, B: Allocator>(
    file: &FileRef<'_, A>,
    tokens: &Tokens<B>,
) -> Result<Option<TurnedFile<A>>, TreeFault>
    ensures same { IfOk result (λ t. IfNone t (TurnsBy tokens.now file.now file.now)) }
    ensures turned { IfOk result (λ t. IfSome t (λ f. (f.old ≡ file.now) × TurnsBy tokens.now file.now f.new)) }
    ensures fault { IfErr result (λ e. FailsToTurn tokens.now file.now e) }
{
    if file.bytes() > MOST_TURNED as u128 {
        return Err(TreeFault::TooLarge);
    }
    let set = tokens.token_set();
    match lines_turn(file, &set, tokens.old(), tokens.new_token()) {
        Turned::Same => Ok(None),
        Turned::Nothing => Err(TreeFault::TokenThere),
        Turned::Other => {
            let Some(room) = turned_room(file, &set, tokens.old(), tokens.new_token()) else {
                return Err(TreeFault::TooLarge);
            };
            let old = copy_lines(file)?;
            let new = turn_each(file, &set, tokens.old(), tokens.new_token(), room)?;
            Ok(Some(TurnedFile { old, new }))
        }
    }
}

/// What the lines turn to.
fn lines_turn<A: Allocator>(file: &FileRef<'_, A>, set: &TokenSet, old: &[u8], new: &[u8]) -> Turned
    ensures turned { LinesTurnAs (in_table set.now) old.now new.now file.now result }
    ensures some { 0 < length file.now }
{
    let mut turned = Turned::Same;
    let mut lines = file.lines();
    while let Some(line) = lines.next() {
        match turns(set, old, new, line) {
            Turned::Same => {}
            Turned::Other => turned = Turned::Other,
            Turned::Nothing => return Turned::Nothing,
        }
    }
    turned
}

/// How many bytes the turned lines have at most; none where they are more than a file may have. No line is written.
fn turned_room<A: Allocator>(
    file: &FileRef<'_, A>,
    set: &TokenSet,
    old: &[u8],
    new: &[u8],
) -> Option<usize>
    ensures { MatchOption result
        ((ls : TreeLines) → TurnAll (in_table set.now) old.now new.now file.now ls → most_turned < file_size ls)
        (λ _. (ls : TreeLines) → TurnAll (in_table set.now) old.now new.now file.now ls → file_size ls ≤ most_turned) }
{
    // A byte more, since the last line has no newline.
    let mut room = MOST_TURNED + 1;
    let mut lines = file.lines();
    while let Some(line) = lines.next() {
        let Some(left) = room_after(set, old, new, line, room) else {
            return None;
        };
        if left == 0 {
            return None;
        }
        room = left - 1;
    }
    Some((MOST_TURNED + 1).saturating_sub(room))
}

/// A copy of the lines.
fn copy_lines<A: Allocator + Copy>(file: &FileRef<'_, A>) -> Result<Lines<A>, AllocError>
    ensures { IfOk result (λ copy. copy ≡ file.now) }
{
    let bytes = usize::try_from(file.bytes()).unwrap_or(0);
    let mut copy = Lines::with_room(file.allocator(), file.count(), bytes)?;
    let mut lines = file.lines();
    while let Some(line) = lines.next() {
        copy.push_plain(line)?;
    }
    Ok(copy)
}

/// The turned lines, of lines that turn. They get room for so many bytes at once, since an arena takes none back.
fn turn_each<A: Allocator + Copy>(
    file: &FileRef<'_, A>,
    set: &TokenSet,
    old: &[u8],
    new: &[u8],
    room: usize,
) -> Result<Lines<A>, AllocError>
    requires turn { (ls : TreeLines) × TurnAll (in_table set.now) old.now new.now file.now ls }
    requires no_newline { in_table set.now 10 ≡ false }
    requires token { IsToken (in_table set.now) new.now }
    ensures { IfOk result (λ turned. TurnAll (in_table set.now) old.now new.now file.now turned) }
{
    let mut turned = Lines::with_room(file.allocator(), file.count(), room)?;
    let mut text = Vec::new(file.allocator());
    let mut lines = file.lines();
    while let Some(line) = lines.next() {
        text.clear();
        if !turn_into(set, old, new, line, &mut text)? {
            unreachable!()
        }
        turned.push_plain(&text)?;
    }
    Ok(turned)
}
