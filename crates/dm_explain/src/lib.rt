//! What a verdict says, for people: which patches it is about, by name, and what is wrong with a text, by line and column.
//!
//! A verdict names places. [`account_of`] finds what stands there in the bundle and in the repository; an [`Account`] prints
//! itself in lines for people. [`skips_of`] does so for why patches were skipped, and [`AccountWithSkips`] prints an account with
//! that. [`Malformed`] does so for a text that is no bundle. All print into any writer and take no memory while they print.
//!
//! The crate stands on dm_scratch's verdicts, on dm_repo's repositories, on dm_bundle's bundles, and on dm_quoted for what
//! strangers wrote: what doesn't print is escaped. Its theorem is the contract of [`account_of`]: the patches that are named
//! are those at the verdict's places, and of a bundle that was taken each new patch is in the one list that its fate says. So are
//! the names that [`skips_of`] finds at the places that dm_repo tells.
#![tactic(auto)]

mod account;
mod depth;
mod fates;
mod head;
mod malformed;
mod merged;
mod misfits;
mod passing;
mod paths;
mod place;
mod printing;
mod remedies;
mod same;
mod seeming;
mod shown;
mod skips;

pub use account::{Account, Clashing, account_of, held_name, new_name};
pub use depth::Depth;
pub use fates::{Fate, Fates};
pub use malformed::{Malformed, Remedy};
pub use place::{Place, place_of};
pub use printing::AccountWithSkips;
pub use seeming::has_signed_dashes;
pub use shown::Who;
pub use skips::{NamedSkip, Reason, Skips, skips_of};
