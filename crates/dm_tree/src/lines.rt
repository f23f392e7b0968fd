//! A list of lines, none of which has a newline.
ghost use Rattle.std.specs.Prelude.{◌≡◌, ◌↔◌, ◌<◌, ◌++◌, ◌∷◌, [], length, IsTrue, IfOk, OnOk, OnErr, slice_index_or, sum_by};
ghost use Rattle.dm_tree.specs.Validity.{AnswersLine, ArePlain, IsPlain, line_fault};

use crate::fault::LineFault;
use crate::text::Text;
use std::alloc::{AllocError, Allocator};
use std::marker::Model;

/// A list of lines, none of which has a newline byte: the old or the new lines of an edit.
///
/// They stand in one run of bytes, so that they take two blocks of memory, however many they are.
#[derive(Drop)]
pub struct Lines<A: Allocator> {
    text: Text<A>,
}

impl<A: Allocator> Model for Lines<A> {
    ghost use Rattle.std.specs.Prelude.{List, ℕ};
    ghost use Rattle.dm_tree.specs.Validity.{ArePlain};

    ghost Value = { List (List ℕ) };

    ghost view = { λ a. a.text };

    ghost invariant = { λ a. ArePlain a.text };
}

impl<A: Allocator + Copy> Lines<A> {
    /// No lines; takes no memory.
    pub fn new(alloc: A) -> Lines<A>
        ensures { result ≡ [] }
    {
        Lines {
            text: Text::new(alloc),
        }
    }

    /// No lines, with room for so many lines, and for so many bytes of all lines together: for a
    /// reader that knows both before it appends the lines.
    pub fn with_room(alloc: A, lines: usize, bytes: usize) -> Result<Lines<A>, AllocError>
        ensures { IfOk result (λ r. r ≡ []) }
    {
        let text = Text::with_room(alloc, lines, bytes)?;
        Ok(Lines { text })
    }
}

impl<A: Allocator> Lines<A> {
    /// The count of lines.
    pub fn len(&self) -> usize
        ensures value { result ≡ length self.now }
        ensures valid { ArePlain self.now }
    {
        self.text.len()
    }

    /// Whether there is no line.
    pub fn is_empty(&self) -> bool
        ensures { IsTrue result ↔ (self.now ≡ []) }
    {
        self.text.is_empty()
    }

    /// The count of bytes of all lines together, which have no newlines.
    pub fn size(&self) -> usize
        ensures { result ≡ sum_by length self.now }
    {
        self.text.size()
    }

    /// The line at a place, from 0, borrowed.
    pub fn line(&self, i: usize) -> &[u8]
        requires { i < length self.now }
        ensures { result.now ≡ slice_index_or self.now i [] }
    {
        self.text.line(i)
    }

    /// Appends a copy of the line. A line with a newline byte is refused as
    /// [`LineFault::Newline`].
    pub fn push(&mut self, line: &[u8]) -> Result<(), LineFault>
        ensures fault { AnswersLine result (line_fault line.now) }
        ensures ok { OnOk result (self.new ≡ self.old ++ line.now ∷ []) }
        ensures err { OnErr result (self.new ≡ self.old) }
    {
        if line.contains(&b'\n') {
            return Err(LineFault::Newline);
        }
        self.push_plain(line)?;
        Ok(())
    }

    /// Appends a copy of a line that is known to have no newline byte, without a look at its
    /// bytes: for a reader that has just cut the line from a text at its newlines.
    pub fn push_plain(&mut self, line: &[u8]) -> Result<(), AllocError>
        requires { IsPlain line.now }
        ensures ok { OnOk result (self.new ≡ self.old ++ line.now ∷ []) }
        ensures err { OnErr result (self.new ≡ self.old) }
    {
        self.text.push(line)?;
        Ok(())
    }

    /// A copy with another allocator, with no room to spare.
    pub fn copy_into<B: Allocator + Copy>(&self, alloc: B) -> Result<Lines<B>, AllocError>
        ensures { IfOk result (λ r. r ≡ self.now) }
    {
        let text = self.text.copy_into(alloc)?;
        Ok(Lines { text })
    }

    pub(crate) fn text(&self) -> &Text<A>
        ensures value { result.now ≡ self.now }
        ensures valid { ArePlain self.now }
    {
        &self.text
    }
}
