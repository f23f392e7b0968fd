//! Tests of `dm_disk`, and nothing else: a file in a folder of its own.
#![tactic(auto)]

mod asking;
#[cfg(test)]
mod files;
