// FIPS 180-4: specs/ has the standard's definitions, once over the size of a word, and proofs/ the laws of them that a hash above cites.
// The code here is section 4, the functions and the constants of SHA-256. Assumes nothing.
#![tactic(auto)]

pub mod constants256;
pub mod functions32;
