// The instructions of a story, as its bytes spell them.
#![tactic(auto)]

pub mod branch;
mod bytes;
pub mod decode;
pub mod ends;
pub mod examples;
pub mod extent;
mod head;
pub mod instr;
pub mod laws;
pub mod opcode;
pub mod operands;
pub mod routines;
mod table;
pub mod ways;
