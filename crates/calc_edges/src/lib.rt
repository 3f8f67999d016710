//! The edges of the program: where its bytes come from and go to, and how often either side has failed.
#![tactic(auto)]

mod calm_source;
mod failures;
mod history;
mod mem_sink;
mod mem_source;
mod recorded;
mod sink;
mod source;
mod std_edges;

pub use calm_source::CalmSource;
pub use failures::Failures;
pub use history::History;
pub use mem_sink::MemSink;
pub use mem_source::MemSource;
pub use recorded::Recorded;
pub use sink::{Sink, write_all};
pub use source::{Failed, Source};
pub use std_edges::{StdSink, StdSource};
