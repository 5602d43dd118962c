// The game state, its frames and variables, and where an instruction leads.

pub mod call;
pub mod ending;
pub mod finish;
pub mod game_state;
pub mod random;
pub mod resuming;
pub mod returning;
pub mod values;
pub mod variables;
