//! The outside as the modeller sees it: a source of bytes and a sink for bytes, whose calls may fail.
#![tactic(auto)]

mod failed;
mod fault_script;
mod mem_sink;
mod mem_source;
mod read_end;
mod read_source;
mod reading;
mod sink;
mod source;
mod sure_sink;
mod sure_source;
mod write_sink;
mod writing;

pub use failed::Failed;
pub use mem_sink::MemSink;
pub use mem_source::MemSource;
pub use read_end::ReadEnd;
pub use read_source::ReadSource;
pub use reading::read_all;
pub use sink::Sink;
pub use source::Source;
pub use sure_sink::SureSink;
pub use sure_source::SureSource;
pub use write_sink::WriteSink;
pub use writing::write_all;
