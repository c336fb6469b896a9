// Newick text: what it says and how it is read, in `specs/`, and what follows, in `proofs/`; no function.
#![tactic(auto)]
