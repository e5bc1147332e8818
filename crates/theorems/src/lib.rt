#![tactic(auto)]

// No function: what the public entries of the crate examiner promise together, in proofs/. Demand 1 is Refusals.antt, Table.antt and Zeros.antt, demand 2
// Acceptance.antt, Answers.antt and Cases.antt (P1 to P13), demand 3 Examinations.antt, with Checkpoints.antt (the round trip) and Slices.antt (one slice,
// or two in a row). docs/STATEMENTS.md says how to read them.
