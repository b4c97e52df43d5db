// Reads the gathered events of a condition, each of which is tested as it is taken.
#![tactic(auto)]

mod mark;
mod reader;

pub use mark::Mark;
pub use reader::Reader;
