// Below the layers: text that is put into a lent buffer, with numbers in hexadecimal and decimal digits.
#![tactic(auto)]

pub mod buffer;
mod decimal;
mod digits;
pub mod hex;
