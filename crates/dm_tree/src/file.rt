//! A file's lines.
ghost use Rattle.std.specs.Prelude.{◌≡◌, ◌↔◌, ◌+◌, ◌-◌, ◌<◌, ◌≤◌, ◌∷◌, [], length, drop, IsTrue, IfOk, OnOk, OnErr, slice_index_or};
ghost use Rattle.std.specs.List.{splice};
ghost use Rattle.dm_tree.specs.Files.{lines_of, BeginWith};
ghost use Rattle.dm_tree.specs.Listings.{file_size};
ghost use Rattle.dm_tree.specs.Validity.{ArePlain};

use crate::file_lines::FileLines;
use crate::parts::{copy_parts, find, replace, seek, size, stands};
use crate::text::Text;
use std::alloc::{AllocError, Allocator};
use std::marker::Model;

/// A file's lines, held as a list of short texts: an edit moves the bytes of one of them, and a
/// line costs 8 bytes beside its own. An empty file has none of them, and takes no memory.
#[derive(Drop)]
pub(crate) struct File<A: Allocator> {
    parts: Vec<Text<A>, A>,
    count: usize,
}

impl<A: Allocator> Model for File<A> {
    ghost use Rattle.std.specs.Prelude.{◌≡◌, List, ℕ, length};
    ghost use Rattle.dm_tree.specs.Files.{lines_of};
    ghost use Rattle.dm_tree.specs.Validity.{ArePlain};

    ghost Value = { List (List ℕ) };

    ghost view = { λ a. lines_of a.parts.items };

    ghost invariant = { λ a. (a.count ≡ length (lines_of a.parts.items)) × ArePlain (lines_of a.parts.items) };
}

impl<A: Allocator + Copy> File<A> {
    /// A file of one line with no byte; takes no memory.
    pub(crate) fn blank(alloc: A) -> File<A>
        ensures { result ≡ [] ∷ [] }
    {
        File {
            parts: Vec::new(alloc),
            count: 1,
        }
    }

    /// The allocator of its lines.
    pub(crate) fn allocator(&self) -> A {
        *self.parts.allocator()
    }

    /// Puts copies of the fresh lines in place of those from `start` to before `end`.
    pub(crate) fn splice<B: Allocator>(
        &mut self,
        start: usize,
        end: usize,
        fresh: &Text<B>,
    ) -> Result<(), AllocError>
        requires order { start ≤ end }
        requires within { end ≤ length self.old }
        requires plain { ArePlain fresh.now }
        ensures ok { OnOk result (self.new ≡ splice self.old start end fresh.now) }
        ensures err { OnErr result (self.new ≡ self.old) }
    {
        let alloc = *self.parts.allocator();
        let count = sum(alloc, self.count - (end - start), fresh.len())?;
        make_part(&mut self.parts)?;
        replace(&mut self.parts, start, end, fresh)?;
        self.count = count;
        Ok(())
    }
}

impl<A: Allocator> File<A> {
    /// The count of lines.
    pub(crate) fn len(&self) -> usize
        ensures value { result ≡ length self.now }
        ensures plain { ArePlain self.now }
    {
        self.count
    }

    /// Whether the file is empty: one line with no byte.
    pub(crate) fn is_blank(&self) -> bool
        ensures { IsTrue result ↔ (self.now ≡ [] ∷ []) }
    {
        self.len() == 1 && self.line(0).is_empty()
    }

    /// The lines in turn.
    pub(crate) fn lines(&self) -> FileLines<'_, A>
        ensures { result ≡ self.now }
    {
        FileLines::new(&self.parts)
    }

    /// The line at a place, from 0, borrowed.
    pub(crate) fn line(&self, i: usize) -> &[u8]
        requires { i < length self.now }
        ensures { result.now ≡ slice_index_or self.now i [] }
    {
        let Some(place) = find(&self.parts, i) else {
            return &[];
        };
        self.parts[place.part].line(place.line)
    }

    /// Whether the lines from `start` on begin with all those of the text.
    pub(crate) fn begins<B: Allocator>(&self, start: usize, text: &Text<B>) -> bool
        requires { start ≤ length self.now }
        ensures { IsTrue result ↔ BeginWith (drop start self.now) text.now }
    {
        let parts = self.parts.as_slice();
        if parts.is_empty() {
            return blank_begins(start, text);
        }
        let place = seek(parts, start);
        stands(&parts[place.part..], place.line, &text.all())
    }

    /// The size of the file in bytes: its lines, and a newline between each two.
    pub(crate) fn bytes(&self) -> u128
        requires { 0 < length self.now }
        ensures { result ≡ file_size self.now }
    {
        size(&self.parts) + (self.count - 1) as u128
    }

    /// A copy with another allocator, with no room to spare.
    pub(crate) fn copy_into<B: Allocator + Copy>(&self, alloc: B) -> Result<File<B>, AllocError>
        ensures { IfOk result (λ r. r ≡ self.now) }
    {
        let parts = copy_parts(alloc, &self.parts)?;
        Ok(File {
            parts,
            count: self.count,
        })
    }
}

/// An empty file, which has no part, gets one, of its one line.
fn make_part<A: Allocator + Copy>(parts: &mut Vec<Text<A>, A>) -> Result<(), AllocError>
    ensures some { OnOk result (0 < length parts.new.items) }
    ensures lines { lines_of parts.new.items ≡ lines_of parts.old.items }
{
    if !parts.is_empty() {
        return Ok(());
    }
    let mut text = Text::with_room(*parts.allocator(), 1, 0)?;
    text.push(&[])?;
    parts.reserve_exact(1)?;
    parts.push(text)?;
    Ok(())
}

/// Whether an empty file's lines from `start` on begin with all those of the text.
fn blank_begins<A: Allocator>(start: usize, text: &Text<A>) -> bool
    requires { start ≤ 1 }
    ensures { IsTrue result ↔ BeginWith (drop start ([] ∷ [])) text.now }
{
    if text.is_empty() {
        return true;
    }
    if start > 0 {
        return false;
    }
    if text.len() > 1 {
        return false;
    }
    text.line(0).is_empty()
}

/// The sum of two counts. Where it is no count, there is not as much memory.
fn sum<A: Allocator>(alloc: A, a: usize, b: usize) -> Result<usize, AllocError>
    ensures { IfOk result (λ n. n ≡ a + b) }
{
    let Some(sum) = a.checked_add(b) else {
        let _all: Vec<u8, A> = Vec::with_capacity(alloc, usize::MAX)?;
        unreachable!()
    };
    Ok(sum)
}
