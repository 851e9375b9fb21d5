// Beside the layers: extended data frames as GridConnect text, which bus viewers exchange (A.7).
#![tactic(auto)]

pub mod answer;
mod digits;
pub mod reader;
pub mod writer;
