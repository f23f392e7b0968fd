//! Where texts come from.
ghost use Rattle.std.specs.Prelude.{◌≡◌, ◌<◌, [], ◌∷◌, ◌++◌, List, ℕ, IfOk, IfSome, IfNone, OnErr};

/// Texts that come one after the other: files by their names, or a stream.
pub trait Source {
    /// Why the next text could not be read.
    type Error;

    /// Between the first state and the second it gave just these texts, in this order.
    ghost gave: { Self → List (List ℕ) → Self → Type 0 };

    /// It has given all that it had.
    ghost is_done: { Self → Type 0 };

    /// At most so many more texts come.
    ghost most: { Self → ℕ };

    /// The next text, or none where it has given all.
    fn next_text(&mut self) -> Result<Option<Vec<u8>>, Self::Error>
        ensures some { IfOk result (λ found. IfSome found (λ text. gave self.old (text.items ∷ []) self.new)) }
        ensures none { IfOk result (λ found. IfNone found (gave self.old [] self.new)) }
        ensures done { IfOk result (λ found. IfNone found (is_done self.new)) }
        ensures fewer { IfOk result (λ found. IfSome found (λ _. most self.new < most self.old)) }
        ensures err { OnErr result (gave self.old [] self.new) };

    /// Before any call it has given nothing.
    ghost gave_none: { (source : Self) → gave source [] source };

    /// What it gave first, and then.
    ghost gave_more: { (a b c : Self) (xs ys : List (List ℕ)) → gave a xs b → gave b ys c → gave a (xs ++ ys) c };
}
