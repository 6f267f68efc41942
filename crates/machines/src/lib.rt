// The theorems about machines that take one call after the other: no code, only definitions and what is proved about
// them. Rules D3 to D6, and P5, rest on them: the fragment table and the station table are such machines.
//
// specs/Machine: runs of any machine. specs/Story: a machine whose calls act key by key, and one key's story.
// specs/Happened: calls that happened, each as its contract allows. specs/Both: two machines side by side.
// specs/Claims: what is claimed. proofs/Claims proves it: proofs/Story, one key's story told alone; proofs/TwoRuns, the
// same for two runs, and calls in another order; proofs/Happened, that calls that happened are a run; proofs/Both, that
// each of two machines goes as it would alone; proofs/Lists, laws of their lists.
#![tactic(auto)]
