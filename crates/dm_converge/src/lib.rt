//! Convergence: repositories that began alike and hold patches of the same names have the same tree, if a name stands for one patch.
//!
//! It stands on `dm_facts`, where a primitive takes away facts of a tree with identities and adds others, the same wherever it
//! stands. Here a name stands for what its patch names as dependencies and for the effects of its primitives. Splits, merges and
//! sending keep to that, so a repository is a sum of what its names stand for, and a sum knows no order. For whoever takes bundles
//! the theorem is [`laws::networks_converge`]: it asks that bundles from outside that bring one patch have one context and begin
//! alike, and that none brings a patch of the base. No call here does anything.
#![tactic(auto)]

pub mod laws;
