//! Compact JSON, written piece by piece after what is there. It knows nothing of what the texts
//! say.
#![tactic(auto)]

mod json_array;
mod json_value;

pub use json_array::{push_array, push_comma};
pub use json_value::{
    push_bool, push_digest, push_number_or_null, push_optional, push_string, push_truth,
};
