#![tactic(auto)]
// Laws for loops over lent buffers and for decisions. They stand in specs/; there is no code here.
