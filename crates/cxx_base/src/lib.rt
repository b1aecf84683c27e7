//! What every layer of the translator speaks of: names and their numbers, places and spans in a source text, bytes,
//! limits and step counts, kinds and operators of whole numbers, lists of outcomes, and refusals with their notes.
#![tactic(auto)]

mod bytes;
pub mod cause;
mod code;
mod keyed_hash;
mod laws;
pub mod library;
mod limits;
mod memory;
mod name;
mod names;
mod note;
mod number;
mod operator;
mod outcome_list;
mod place;
mod refusal;
mod text_set;
mod ticks;

pub use bytes::Bytes;
pub use code::Code;
pub use keyed_hash::KeyedHash;
pub use laws::{is_sent_and_shared, names_are_sent_and_shared, outcomes_are_sent_and_shared};
pub use limits::{
    DEFAULT_DEPTH, DEFAULT_STEPS, DEFAULT_WORKERS, Limits, MAX_BOUND, MAX_DEPTH, MAX_EDITS,
    MAX_GENERATED, MAX_IDENTIFIER, MAX_IMAGE, MAX_NESTING, MAX_OBJECT, MAX_PIECES, MAX_SOURCE,
    MAX_STEPS, MAX_UNITS, MAX_WORKERS, TOO_DEEP, defaults_are_in_range,
};
pub use memory::Memory;
pub use name::Name;
pub use names::{Names, names_are_in_place};
pub use note::{Note, Notes, SHOWN_CALLS, no_call_is_noted};
pub use number::{EntityNo, PieceNo, ScopeNo};
pub use operator::{CompareOp, IntKind, IntOp};
pub use outcome_list::OutcomeList;
pub use place::{Place, Span};
pub use refusal::Refusal;
pub use ticks::Ticks;
