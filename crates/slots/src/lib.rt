// Slots: what a slot's bytes are and which block it shows is defined in specs/, and proofs/ has the laws. There is no code: the stash and
// the path's items each read and write their slots in place.
#![tactic(auto)]
