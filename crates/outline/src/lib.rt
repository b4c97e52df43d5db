// Trees in slots, written as text.
#![tactic(auto)]

mod leaf;
mod print;

pub use print::{Form, show};
