#![tactic(auto)]
// Functions that call the calls for C, about registers. Each is proved from their contracts alone.
pub mod addresses;
pub mod commands;
pub mod kept;
pub mod videos;
