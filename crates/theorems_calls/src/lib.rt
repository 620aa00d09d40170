// No code: what is stated of several calls together. The grounds of every call, in figures and in their order (specs/Grounds.antt); which calls
// accept a table (Accepting); sets and forbidden states in words (States); an old file through rewrite, read, decide and check (RewriteCalls).
#![tactic(auto)]
