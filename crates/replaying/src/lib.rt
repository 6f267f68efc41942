// What becomes of pushes that were written to a capture, once they are read from it and pushed again (rule G10). There is
// no code here, only what is claimed and proved: specs/Claims, and proofs/Claims.
#![tactic(auto)]
