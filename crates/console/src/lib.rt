// Standard input and output, line by line and piece by piece, the arguments that a program was started with, and how it ended.
#![tactic(auto)]

pub mod arguments;
pub mod errors;
pub mod lines;
pub mod names;
pub mod output;
pub mod status;
