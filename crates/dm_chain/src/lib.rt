//! A file as a chain of tokens: its lines and the gaps between them, each between two ports. A hunk
//! takes tokens away and adds tokens.
//!
//! It stands on `dm_prim`, and no code runs. Its theorem: where two hunks of one file change places,
//! each takes and adds the same tokens as before. So which tokens a file has depends on which hunks
//! were applied and not on their order, and the tokens determine the file. The laws stand in [`laws`].
#![tactic(auto)]

pub mod laws;
