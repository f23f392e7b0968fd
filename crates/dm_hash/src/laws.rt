//! Laws of trailers.

ghost use Rattle.dm_hash.specs.Laws.{OneTrailer, WrittenHashIsRight};

/// A text says at most one thing of the same patches.
pub fn one_trailer()
    ensures { OneTrailer }
{}

/// The text of a bundle with the trailer that is written behind it stands for the bundle, and its trailer is right.
pub fn written_hash_is_right()
    ensures { WrittenHashIsRight }
{}
