#![tactic(auto)]
// Functions that call the calls for C, about files, numbers and phrases. Each is proved from their contracts alone.
// `callers_registers` has those about registers, `callers_stepped` those about stepping.
pub mod again;
pub mod index;
pub mod moved;
pub mod runs;
pub mod saved;
pub mod sizes;
pub mod texts;
