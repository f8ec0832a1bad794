// What is written as TAP and read again: definitions and laws only, in specs/ and proofs/. There is no code.
#![tactic(auto)]
