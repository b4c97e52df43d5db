// Replays a table of literals and compares each answer with the one that the table has.
#![tactic(auto)]

mod answer;
mod table;
#[cfg(test)]
mod tests;

use crate::table::Counts;
use std::{fs, io};

fn main(rt: HostRuntime) -> io::Result<()> {
    let text = fs::read_to_string(&rt, "literals.txt")?;
    let mut counts = Counts::default();
    for line in text.as_str().lines() {
        counts.replay(&rt, line)?;
    }
    counts.print(&rt)
}
