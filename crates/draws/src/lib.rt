// Draws and what is shown of them: definitions and laws only, in specs/ and proofs/. There is no code: the leaves are drawn outside.
#![tactic(auto)]
