// Examples for kinds, spans, events, their sources, and refusals.
#![tactic(auto)]

#[cfg(test)]
mod packed;
#[cfg(test)]
mod refusals;
#[cfg(test)]
mod spans;
