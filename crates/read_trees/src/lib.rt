//! Definitions that read: what is left to do of one is a tree of ends, refusals, steps, reads of earlier pieces, and questions.
//!
//! There is no code here, and no language: `specs/` has the words in which all that translates a piece is defined, `proofs/` their
//! laws. A definition takes no facts. What it comes to over facts is [`Runs.run`], and how far a resumable call came in it `Walks`.
#![tactic(auto)]
