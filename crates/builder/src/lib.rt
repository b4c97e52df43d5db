// Reads the gathered events of a condition into a tree in lent slots and text: so far how nodes grow, and what is read without
// going deeper. Nothing is called from outside yet.
#![tactic(auto)]

mod grow;
mod leaves;
