//! Elements of patches: a primitive, or a conflict that was merged, and when two of them change places.
//!
//! It stands on `dm_prim`. A conflicted element changes a tree by its effect, a list of primitives, and carries shadows: lists of
//! primitives that all start at one tree, the one after it or the one before it. Where two elements change places their effects
//! do, and each shadow passes the other element's effect. [`commute_elements`] returns what this relates, and none only where it
//! relates nothing; [`commute_element_lists_owned`] does the same for lists. [`find_unsettled`] returns the place of the first patch
//! of a list with a conflict that nothing after it settles, and none only where all are settled. [`lists_merge`] says whether two
//! lists that start at one tree merge, and [`has_reason`] whether a conflict is one. [`find_fallen`] applies a list to a tree, and
//! returns the first element whose effect doesn't apply, or whose shadows don't all apply to the tree on their side. The laws of all
//! elements, and of all lists of patches, stand in [`laws`].
#![tactic(auto)]

mod conflicted;
mod copies;
mod element;
pub mod laws;
mod list;
mod merge;
mod pair;
mod settled;
mod shadows;
mod side;
mod standing;

pub use conflicted::Conflicted;
pub use element::Element;
pub use list::commute_element_lists_owned;
pub use merge::{has_reason, lists_merge};
pub use pair::{commute_elements, commute_elements_owned};
pub use settled::{Patch, find_unsettled};
pub use side::Side;
pub use standing::{Fallen, find_fallen};
