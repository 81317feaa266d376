//! Numbers in an order that the caller gives, in which an insertion is cheap however many there
//! are, and items in order of arrival with their order.
#![tactic(auto)]

mod arena;
mod backward;
mod block;
mod directory;
mod guess;
pub mod laws;
mod lent;
mod numbers;
mod order;
mod probe;
mod search;
mod sums;

pub use arena::Arena;
pub use backward::Backward;
pub use guess::{Agreed, Guess, ItemGuess, guess_text};
pub use lent::Lent;
pub use numbers::Numbers;
pub use order::Order;
pub use probe::{ByItem, ItemProbe, Probe};
