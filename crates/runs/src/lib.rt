// The run of a script: what each of its lines does to a store, to a tree and to the listing. Assumes nothing.
#![tactic(auto)]

pub mod head;
pub mod lengths;
pub mod request;
pub mod run;
