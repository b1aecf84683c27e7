//! Definitions that read are a meaning of the machine of parked tasks, whatever the language is.
//!
//! `specs/` makes one of the tree of each piece, and says how a task of a piece stands between its calls; `proofs/` has that the
//! meaning is lawful, that its next read is the one that the tree comes to, and what keeps a task standing. There is no code here.
#![tactic(auto)]
