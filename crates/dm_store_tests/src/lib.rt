//! Tests of `dm_store`, and nothing else: that calls succeed where memory is ample, and that what was taken is there after the
//! file is opened again.
#![tactic(auto)]

mod asking;
#[cfg(test)]
mod repositories;
#[cfg(test)]
mod stores;
mod tearing;
#[cfg(test)]
mod tears;
