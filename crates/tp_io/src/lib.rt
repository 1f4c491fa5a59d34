//! Files that are loaded whole and sinks that are written to, in memory and over the system.
#![tactic(auto)]

mod contents;
mod files;
mod host_files;
mod host_sink;
mod load_list;
mod mem_files;
mod mem_sink;
mod sinks;
mod sure_files;
mod sure_sink;

pub use files::{Files, LoadFault};
pub use host_files::HostFiles;
pub use host_sink::HostSink;
pub use mem_files::MemFiles;
pub use mem_sink::MemSink;
pub use sinks::{Sink, SinkFault, put_all};
pub use sure_files::SureFiles;
pub use sure_sink::SureSink;
