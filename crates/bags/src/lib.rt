// Lists as bags: definitions and laws only, in specs/ and proofs/. There is no code.
#![tactic(auto)]
