#![tactic(auto)]
// Functions that call the calls for C, about steps, pictures and moves. Each is proved from their contracts alone.
// `feldrime_step` itself alters a board where it stands: these functions call `step_numbers`, the step by value that
// it is.
pub mod lines;
pub mod moved;
pub mod pictures;
pub mod states;
