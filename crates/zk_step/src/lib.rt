// One instruction, carried out: its operands, its effect, where what it prints goes, and its finish.
#![tactic(auto)]

pub mod examples;
pub mod input;
pub mod instruction;
pub mod laws;
pub mod opcodes;
pub mod output;
pub mod output_examples;
pub mod saving_examples;
pub mod state;
