// The lines of the program: what each asks for, and how an answer is printed.
#![tactic(auto)]

pub mod answer;
pub mod command;
mod fields;
pub mod reading;
mod word;
