// The theorems about runs of the fragment table, and of the station table beside it: rules D3 to D6, and S3. There is
// no code here, only definitions and what is proved about them.
//
// specs/Runs: runs of the table; specs/Happened: calls that happened, by their contracts; specs/Shares: one key's part
// in a sweep's number; specs/Messages: a message cut into fragments; specs/Claims: what is claimed. proofs/Claims
// proves the claims: proofs/Orders, one key's story told alone, the sums of a sweep, and from these the order across
// keys; proofs/Answering, that whatever is asked is answered; proofs/Happened, that calls that happened are such runs,
// also with a station table beside them; proofs/Completes, that a message completes; proofs/Unfinished, what a key
// holds. proofs/Examples has examples of these rules.
//
// The way there: the crate machines (any machine whose calls act key by key); Telling to Sweeps (what a push and a
// sweep do to a key's holding, from the table's laws); Count and Found (how many places a row has); Totals and Counting
// (what a sweep counts); Locality (the table is such a machine); Alone (a table that is given one key alone has the
// room that the key had among others).
#![tactic(auto)]
