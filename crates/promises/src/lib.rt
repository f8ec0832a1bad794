// The owner's demands, as theorems about the definitions that the contracts of the entries cite: specs/ has the statements, proofs/ their proofs.
// There is no code.
#![tactic(auto)]
