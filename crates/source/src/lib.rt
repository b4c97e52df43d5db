// Where events come from: what a source of events means, and two kinds of source.
#![tactic(auto)]

mod close;
mod event_source;
mod pack;
mod packed;
mod row;

pub use close::Fault;
pub use event_source::EventSource;
pub use pack::{append, append_end};
pub use packed::Packed;
pub use row::Row;
