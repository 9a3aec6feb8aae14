// The commands of the program of the three levels: each reads its files, calls the proved libraries and prints what they answer.
#![tactic(auto)]

mod common;
mod covers;
pub mod cut;
mod defects;
mod head_office;
pub mod help;
pub mod matching;
mod may;
mod messages;
mod pages;
pub mod panel_loop;
pub mod path;
mod replaced;
pub mod report;
mod shown;
mod table;
mod who;
