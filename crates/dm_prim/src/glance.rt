//! What is known of a list of primitives at a glance, without its paths.
ghost use Rattle.std.specs.Prelude.{IsTrue, List};
ghost use Rattle.dm_tree.specs.Paths.{Path};
ghost use Rattle.dm_prim.specs.Glances.{AreAsideFrom, IsGlanceOf};
ghost use Rattle.dm_prim.specs.Primitives.{Prim};
ghost use Rattle.dm_prim.specs.Sketches.{Covers};

use crate::sketch::Sketch;

/// The sketch of the paths that a list of primitives names, and whether it has no move.
#[derive(Clone, Copy)]
pub struct Glance {
    pub(crate) sketch: Sketch,
    pub(crate) moves_nothing: bool,
}

impl Glance {
    /// Whether the glance tells that no primitive is a move, and that none names a path that is, contains or is inside one of the paths of a
    /// sketch. A no tells nothing.
    pub fn is_aside(&self, others: &Sketch) -> bool
        ensures { IsTrue result → (ps : List Prim) (paths : List Path) → IsGlanceOf ps self.now → Covers paths others.now → AreAsideFrom paths ps }
    {
        if !self.moves_nothing {
            return false;
        }
        self.sketch.is_apart_from(others)
    }
}
