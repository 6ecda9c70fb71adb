#![tactic(auto)]
// Two boards that fetch the same bytes show the same. It is proved in specs/; there is no code here.
