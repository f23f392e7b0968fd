//! Lines of three texts that are to stand one after another.
ghost use Rattle.std.specs.Prelude.{◌≡◌, ◌-◌, ◌^◌, ◌<◌, ◌≤◌, ◌++◌, length, take, drop, IfOk};

use crate::text::Text;
use crate::text_ref::TextRef;
use std::alloc::{AllocError, Allocator};
use std::marker::Model;

/// Lines of three texts that are to stand one after another, borrowed.
#[derive(Drop)]
pub(crate) struct Chain<'t> {
    front: TextRef<'t>,
    middle: TextRef<'t>,
    back: TextRef<'t>,
}

impl<'t> Model for Chain<'t> {
    ghost use Rattle.std.specs.Prelude.{◌++◌, List, ℕ};

    ghost Value = { List (List ℕ) };

    ghost view = { λ a. a.front ++ (a.middle ++ a.back) };
}

impl<'t> Chain<'t> {
    pub(crate) fn new(front: TextRef<'t>, middle: TextRef<'t>, back: TextRef<'t>) -> Chain<'t>
        ensures { result ≡ front.entry ++ (middle.entry ++ back.entry) }
    {
        Chain {
            front,
            middle,
            back,
        }
    }

    /// The count of lines.
    pub(crate) fn len(&self) -> usize
        requires { length self.now < 2 ^ 64 }
        ensures { result ≡ length self.now }
    {
        self.front.len() + (self.middle.len() + self.back.len())
    }

    /// A text of the lines from `start` to before `end`, with no room to spare.
    pub(crate) fn text<A: Allocator + Copy>(
        &self,
        alloc: A,
        start: usize,
        end: usize,
    ) -> Result<Text<A>, AllocError>
        requires { start ≤ end }
        ensures { IfOk result (λ r. r ≡ take (end - start) (drop start self.now)) }
    {
        let front = self.front.within(start, end);
        let passed = self.front.len();
        let from = start.saturating_sub(passed);
        let to = end.saturating_sub(passed);
        let middle = self.middle.within(from, to);
        let passed = self.middle.len();
        let back = self
            .back
            .within(from.saturating_sub(passed), to.saturating_sub(passed));
        text_of(alloc, end - start, &front, &middle, &back)
    }
}

/// A text of the lines, one after another, with room for `lines` of them.
fn text_of<A: Allocator + Copy>(
    alloc: A,
    lines: usize,
    front: &TextRef<'_>,
    middle: &TextRef<'_>,
    back: &TextRef<'_>,
) -> Result<Text<A>, AllocError>
    ensures { IfOk result (λ r. r ≡ front.now ++ (middle.now ++ back.now)) }
{
    let bytes = front
        .bytes()
        .len()
        .saturating_add(middle.bytes().len())
        .saturating_add(back.bytes().len());
    let mut text = Text::with_room(alloc, lines, bytes)?;
    text.append(front)?;
    text.append(middle)?;
    text.append(back)?;
    Ok(text)
}
