//! Elements of lists, where they stand, and lists in which no two are the same: definitions, and laws
//! that the proofs on linked programs share. There is no code here: what a proof needs, it cites.
#![tactic(auto)]
