// Worked examples of the rules as one proved table: specs/Claims.antt states each row, proofs/Claims.antt proves them.
#![tactic(auto)]
