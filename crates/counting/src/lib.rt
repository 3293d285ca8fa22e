#![tactic(auto)]

// Counting: definitions and laws over any test `p : ℕ → Bool` on numbers, with no word of sheets or families.
//
// The crate has no code. specs/ says what a count, a rank, the y-th number, a run, a stretch, a packed window and a periodic
// selection are; proofs/ has their laws, each stated once, for every layer above.
