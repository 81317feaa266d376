//! Which documents a replica accepts, by its configuration, its receipts and its records of
//! distrust: the promise of `closure_core`, kept over an index of what waits for what. It hands on
//! the names of `closure_core` that a caller needs.
//!
//! `wire` gives a receipt its node and edges in the index, and `seeds` a configured document its
//! node. `grow` changes what is held, the different documents and the index together, and after a
//! close `recount` counts again the documents whose nodes fell or came back. `distrusted_labels`
//! says which labels a merge closes. `changes` makes room before the first change, `closure` is the
//! public type, and `exchange_closure` the one that also keeps the ids of its receipts.
//!
//! `specs/Inside/NodeSpecs` says what ties a net to what its nodes are to be (`Represents`): one
//! node for each, and just the edges that its offers and its need ask for. The lemma of each call
//! of `label_index` is in `proofs/RepresentFacts`, and `proofs/EdgeFacts` goes between edges and
//! nodes. In `proofs/ReachedFacts` reached nodes are accepted documents, and released receipts are
//! reached nodes. In `proofs/IndexFacts` the documents whose count is not 0 are the accepted ones,
//! through a start, a take, a distrust and a merge.
#![tactic(auto)]

mod changes;
mod closure;
mod distrusted_labels;
mod exchange_closure;
mod grow;
pub mod laws;
mod recount;
mod seeds;
mod wire;

pub use closure::IndexedClosure;
pub use closure_core::{
    Accepted, Closure, Distrusted, Distrusts, NoMemory, Receipts, Refused, TakeError, Taken,
};
pub use exchange_closure::ExchangeClosure;
