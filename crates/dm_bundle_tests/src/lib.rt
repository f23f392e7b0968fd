//! Tests of `dm_bundle` and of the crates under it, and nothing else: of trees, primitives, patch infos, named patches and bundles.
//!
//! They show what no contract says and no text of a program can: that a call returns an answer where memory is ample, over the
//! heap and over an arena; what is lent and given up; what takes no memory. Examples worked by hand check the definitions. A
//! crate with tests is proved twice, so tests stand in crates of their own. What some of them ask has a contract.
#![tactic(auto)]

mod asking;
#[cfg(test)]
mod bundles;
#[cfg(test)]
mod infos;
#[cfg(test)]
mod named;
#[cfg(test)]
mod primitives;
#[cfg(test)]
mod rows;
#[cfg(test)]
mod trees;
#[cfg(test)]
mod wider;
