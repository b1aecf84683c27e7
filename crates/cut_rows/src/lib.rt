//! What the definition of tokens says of some texts, computed.
#![tactic(auto)]

mod laws;

pub use laws::{texts_have_their_cuts, texts_have_their_tokens};
