// What becomes of fragments that the checker accepts, once they are pushed (rule M7). There is no code here, only what
// is claimed and proved: specs/Claims, and proofs/Claims.
#![tactic(auto)]
