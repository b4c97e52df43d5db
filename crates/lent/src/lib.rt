// Memory that the caller lends, filled from the front.
#![tactic(auto)]

mod memory;

pub use memory::{Lent, blank_from, put};
