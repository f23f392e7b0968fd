//! Tests of `dm_repo` and `dm_scratch`, and nothing else: of repositories, and of texts taken into them.
//!
//! They show what no contract says and no text of a program can: that a call returns an answer where memory is ample, over the
//! heap and over an arena; what becomes of the arena; that a refusal for memory leaves the repository as it was.
#![tactic(auto)]

mod asking;
#[cfg(test)]
mod repositories;
#[cfg(test)]
mod taking;
