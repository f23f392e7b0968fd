//! Tests of dm_log and of dm_checkout.
#![tactic(auto)]

mod asking;
#[cfg(test)]
mod checkouts;
#[cfg(test)]
mod choices;
#[cfg(test)]
mod logs;
