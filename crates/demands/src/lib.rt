// The three demands of document 00 as theorems about the calls of `rota`: specs/ states them, proofs/ proves them. No call is known
// here but by its contract, so a contract that promises less no longer proves them.
#![tactic(auto)]
