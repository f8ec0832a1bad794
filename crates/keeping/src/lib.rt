// What is kept from request to request, beside an honest server: definitions and laws only, in specs/ and proofs/. There is no code.
#![tactic(auto)]
