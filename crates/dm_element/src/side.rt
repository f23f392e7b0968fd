//! The two sides of an element.
ghost use Rattle.std.specs.Prelude.{◌≡◌};
ghost use Rattle.dm_element.specs.Elements.{other, at_side};

/// The tree before an element, or the tree after it.
#[derive(Clone, Copy)]
pub enum Side {
    After,
    Before,
}

impl Side {
    /// The other one.
    pub fn other(self) -> Side
        ensures { result ≡ other self }
    {
        match self {
            Side::After => Side::Before,
            Side::Before => Side::After,
        }
    }

    /// Of two lists, the one on this side.
    pub(crate) fn pick<'a, T>(self, before: &'a [T], after: &'a [T]) -> &'a [T]
        ensures { result.now ≡ at_side self before.now after.now }
    {
        match self {
            Side::After => after,
            Side::Before => before,
        }
    }
}
