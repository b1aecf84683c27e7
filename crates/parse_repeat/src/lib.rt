//! Parts that may be missing, and lists of parts, over whatever reads a part.
#![tactic(auto)]

mod here;
mod list;
mod part;

pub use here::Here;
pub use list::{comma_list, comma_list_if_any, list_if_any, many};
pub use part::{Identifiers, Part, boxed_if_any, optional};
