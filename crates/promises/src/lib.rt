// What the calls promise, statement by statement: propositions in specs/, each with its proof in proofs/ under the
// same name.
#![tactic(auto)]
