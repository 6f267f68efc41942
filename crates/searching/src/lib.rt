// The least number that passes a test, how many numbers pass, and the laws of both. They state every look-up in a table
// and every count over one. There is no code here, only definitions and what is proved of them.
#![tactic(auto)]
