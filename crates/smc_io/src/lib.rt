//! Where files are read from and where texts are written to: the traits `Source` and `Sink`, their
//! forms over memory and over the host, and the calls that read a whole file and write a whole text.
#![tactic(auto)]

mod failed;
mod failures;
mod host_files;
mod host_out;
mod mem_files;
mod mem_sink;
mod shelf;
mod sink;
mod source;
mod sure_files;
mod sure_sink;
mod whole_read;
mod whole_write;

pub use failed::Failed;
pub use host_files::HostFiles;
pub use host_out::HostOut;
pub use mem_files::MemFiles;
pub use mem_sink::MemSink;
pub use sink::Sink;
pub use source::Source;
pub use sure_files::SureFiles;
pub use sure_sink::SureSink;
pub use whole_read::{ReadAll, read_all};
pub use whole_write::{WriteFault, write_all};

#[cfg(test)]
mod tests;
