// Why a condition is refused.
#![tactic(auto)]

mod refusal;

pub use refusal::{Layer, Refusal};
