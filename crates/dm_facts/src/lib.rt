//! A tree as a sum of facts, and why the order of patches is gone from what they make.
//!
//! Each directory and each file has an identity, and so has each place in a file. Then a primitive takes some facts away and adds
//! some: which entry stands in which directory under which name, which gaps and lines a file consists of (`dm_chain`), and which
//! replaces are in its heap. A line is a symbol here, and the heap spells its text, so a replace changes no line. Two primitives
//! that commute have the same effects in both orders; the facts of what a run makes are those of its start with all that was added,
//! less all that was taken away; and the facts determine the tree. So two runs from one tree that have the same effects, in any
//! order, end in one tree.
//!
//! Nothing runs here: the [`laws`] hold of the trees and primitives of `dm_prim`, with identities of any type.
#![tactic(auto)]

pub mod laws;
