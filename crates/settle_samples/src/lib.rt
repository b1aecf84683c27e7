//! Small meanings, for tests: three pieces of which the last reads by what it has read, pieces without reads, and a chain.
#![tactic(auto)]

mod behind;
mod chain;
mod readless;
mod three;

pub use behind::Behind;
pub use chain::Chain;
pub use readless::Readless;
pub use three::Three;
