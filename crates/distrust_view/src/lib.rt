//! What records of distrust change, as lines for operators: before they are made, or as they are.
//! It knows closures only by their trait.
#![tactic(auto)]

mod effect;
mod fallen;
mod given_keys;
mod keys;
mod warning;

pub use effect::distrust_effect_text;
pub use given_keys::GivenKeys;
pub use warning::is_key_listed;
