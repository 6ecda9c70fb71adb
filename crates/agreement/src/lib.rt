#![tactic(auto)]
// The promises as theorems. They stand in specs/, about the definitions that the public calls' contracts cite; there
// is no code here.
