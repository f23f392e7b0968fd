//! The paths that patches touch.
ghost use Rattle.std.specs.Prelude.{[], ◌∷◌, IfOk, OnOk};
ghost use Rattle.std.specs.List.{flat_map};
ghost use Rattle.dm_prim.specs.Prims.{prim_of, prims_of};
ghost use Rattle.dm_prim.specs.Touch.{paths_of};
ghost use Rattle.dm_log.specs.Touched.{TellsPaths};
ghost use Rattle.dm_log.specs.Collecting.{AddsPaths, Collects};

use crate::keys::Keys;
use crate::patches::Patches;
use dm_named::write_path;
use dm_prim::Prim;
use dm_tree::Path;
use std::alloc::{AllocError, Allocator};
use std::marker::Model;

/// The lines of paths, and the paths in them.
#[derive(Drop)]
struct PathLines<A: Allocator> {
    keys: Keys<A>,
    text: Vec<u8, A>,
}

impl<A: Allocator> Model for PathLines<A> {
    ghost use Rattle.dm_log.specs.Collecting.{Collected};

    ghost Value = { Collected };

    ghost view = { λ p. record { keys = p.keys; text = p.text.items } };
}

impl<A: Allocator + Copy> PathLines<A> {
    fn new(alloc: A) -> PathLines<A>
        ensures { Collects [] result }
    {
        PathLines {
            keys: Keys::new(alloc),
            text: Vec::new(alloc),
        }
    }

    /// Adds the line of a path, unless it is there.
    fn add_path<B: Allocator>(&mut self, path: &Path<B>) -> Result<(), AllocError>
        ensures { OnOk result (AddsPaths (path.now ∷ []) self.old self.new) }
    {
        let mut key = Vec::new(*self.text.allocator());
        write_path(path, &mut key)?;
        if !self.keys.insert(key)? {
            return Ok(());
        }
        self.text.extend_from_slice(b"path ")?;
        write_path(path, &mut self.text)?;
        self.text.push(b'\n')?;
        Ok(())
    }

    /// Adds the lines of a move's paths.
    fn add_move<B: Allocator>(&mut self, from: &Path<B>, to: &Path<B>) -> Result<(), AllocError>
        ensures { OnOk result (AddsPaths (from.now ∷ to.now ∷ []) self.old self.new) }
    {
        self.add_path(from)?;
        self.add_path(to)?;
        Ok(())
    }

    /// Adds the lines of the paths that a primitive names.
    fn add_prim<B: Allocator>(&mut self, prim: &Prim<B>) -> Result<(), AllocError>
        ensures { OnOk result (AddsPaths (paths_of (prim_of prim.now)) self.old self.new) }
    {
        match prim {
            Prim::AddFile(path) => self.add_path(path),
            Prim::RmFile(path) => self.add_path(path),
            Prim::AddDir(path) => self.add_path(path),
            Prim::RmDir(path) => self.add_path(path),
            Prim::Move(from, to) => self.add_move(from, to),
            Prim::Hunk(hunk) => self.add_path(hunk.path()),
            Prim::Binary(binary) => self.add_path(binary.path()),
            Prim::Replace(replace) => self.add_path(replace.path()),
            Prim::ChangePref(_) => Ok(()),
        }
    }

    /// Adds the lines of the paths that primitives name.
    fn add_prims<B: Allocator>(&mut self, prims: &[Prim<B>]) -> Result<(), AllocError>
        ensures { OnOk result (AddsPaths (flat_map paths_of (prims_of prims.now)) self.old self.new) }
    {
        for prim in prims {
            self.add_prim(prim)?;
        }
        Ok(())
    }
}

/// A line for each path that the patches touch, in the order in which they first name it; of a move both.
pub fn write_paths<B: Allocator + Copy, P: Patches>(
    alloc: B,
    patches: &P,
) -> Result<Vec<u8, B>, AllocError>
    ensures { IfOk result (λ text. TellsPaths (P.patches patches.now) text.items) }
{
    let all = patches.count();
    let mut lines = PathLines::new(alloc);
    for k in 0..all {
        lines.add_prims(patches.at(k).prims())?;
    }
    Ok(lines.text)
}
