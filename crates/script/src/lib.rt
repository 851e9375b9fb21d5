// Layer 3: the library of the program `segment`: commands from bytes, lines to bytes, a whole run.
#![tactic(auto)]

pub mod command;
pub mod lines;
pub mod program;
pub mod reader;
