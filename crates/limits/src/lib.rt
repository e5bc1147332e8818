#![tactic(auto)]

// No function: the definition computed at each greatest size and one past it, in proofs/Limits.antt. A crate of its own, since these
// cases are long to compute.
