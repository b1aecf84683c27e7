//! The edge of the translator: what it reads from and writes to. A `Source` gives bytes and a
//! `Sink` takes them, each over memory, with calls that fail where a test wants it, or over std's
//! readers and writers. `read_all` reads a source to its end under a cap, and `write_all` writes a
//! whole text.
#![tactic(auto)]

mod call_list;
mod edge;
mod from_read;
mod mem_sink;
mod mem_source;
mod reading;
mod to_write;
mod writing;

pub use call_list::CallList;
pub use edge::{Failed, Sink, Source};
pub use from_read::FromRead;
pub use mem_sink::MemSink;
pub use mem_source::MemSource;
pub use reading::{ReadAll, read_all};
pub use to_write::ToWrite;
pub use writing::{WriteFault, write_all};
