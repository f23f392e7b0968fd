//! Tests of `dm_converge`, and nothing else: that its laws need their premise.
//!
//! Where a name stands for two patches, or the context of one bundle is another than that of the other, mirrors can hold the same
//! names and have different trees.
#![tactic(auto)]

#[cfg(test)]
mod apart;
mod asking;
