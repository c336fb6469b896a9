// Merge tables with signs: what their entries name and which tables are good, in `specs/`, and what follows, in
// `proofs/`; no function.
#![tactic(auto)]
