//! Sketches of paths, by which most patches are seen at a glance to touch nothing in common.
ghost use Rattle.std.specs.Prelude.{◌≡◌, ◌≢◌, ◌<◌, [], All, IsTrue, List};
ghost use Rattle.std.specs.Int.{bit_at};
ghost use Rattle.dm_tree.specs.Paths.{Path as TreePath};
ghost use Rattle.dm_prim.specs.Sketches.{bit_of, Covers, GrowsBy, HasLeading, Keeps};
ghost use Rattle.dm_prim.specs.Touch.{IsApartFrom};

use dm_tree::Path;
use std::alloc::Allocator;
use std::hash::{DefaultHasher, Hasher};

/// A bit for each of some paths, and one for each directory above them, drawn by a hash of the names. Paths with no bit in
/// common are apart. Others may be apart too, since two paths may draw the same one of the 128 bits: then the paths
/// themselves tell.
#[derive(Clone, Copy)]
pub struct Sketch {
    /// The bit of each path.
    whole: u128,
    /// The bits of each path and of the directories above it.
    leading: u128,
}

impl Sketch {
    /// The sketch of no path.
    pub(crate) fn new() -> Sketch
        ensures { Covers [] result }
    {
        Sketch {
            whole: 0,
            leading: 0,
        }
    }

    /// Adds a path.
    pub(crate) fn add<A: Allocator>(&mut self, path: &Path<A>)
        ensures { GrowsBy path.now self.old self.new }
    {
        let (bit, leading) = with_leading(self.leading, path);
        self.whole = with_bit(self.whole, bit);
        self.leading = leading;
    }

    /// The sketch of these paths.
    pub fn of<A: Allocator>(paths: &[Path<A>]) -> Sketch
        ensures { Covers paths.now result }
    {
        let mut sketch = Sketch::new();
        for path in paths {
            sketch.add(path);
        }
        sketch
    }

    /// Whether the bits of neither's paths are among those of the other's leading paths.
    pub(crate) fn is_apart_from(&self, other: &Sketch) -> bool
        ensures { IsTrue result → (fs gs : List TreePath) → Covers fs self.now → Covers gs other.now → All (IsApartFrom gs) fs }
    {
        if self.whole & other.leading != 0 {
            return false;
        }
        self.leading & other.whole == 0
    }
}

/// The bits, and this one.
fn with_bit(bits: u128, bit: u64) -> u128
    requires { bit < 128 }
    ensures set { bit_at result bit ≡ 1 }
    ensures kept { Keeps bits result }
{
    bits | 1 << bit
}

/// The bit of a path, and the bits given with those of the path and of the directories above it.
fn with_leading<A: Allocator>(bits: u128, path: &Path<A>) -> (u64, u128)
    ensures bit { result.0 ≡ bit_of path.now }
    ensures within { result.0 < 128 }
    ensures kept { Keeps bits result.1 }
    ensures leading { HasLeading path.now result.1 }
    ensures below_root { path.now ≢ [] }
{
    let mut hasher = DefaultHasher::new();
    let mut leading = bits;
    for k in 0..path.len() {
        hasher.write(path.part(k));
        leading = with_bit(leading, hasher.finish() % 128);
    }
    (hasher.finish() % 128, leading)
}
