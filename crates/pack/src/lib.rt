// Between the node and the segment: a node, an inbox frame and ages as words.
#![tactic(auto)]

pub mod ages;
pub mod words;
