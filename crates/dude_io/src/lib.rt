//! Files, sinks and image files: the program's edge.
//!
//! Callers are generic over `Files` and `Sink`. Each has one ghost member of plain data, its sight: the count of its
//! faults, and, where they are visible, the texts of the files or the bytes taken; for files also the reads made, where these
//! are listed. `read_file` and `write_all` are the loops over them. `MemFiles` and `MemSink` show all, and their contracts
//! say which calls fail.
//!
//! `RealFiles`, `RealSink` and `FilePmem` are the real edges. They show no content: what is proved of them is that
//! they are safe, that each call returns, and that the count of faults rises exactly where a call fails, until it
//! stands at its last value. What the system reads, writes and syncs is trusted.
#![tactic(auto)]

mod clock;
mod edge_fault;
mod fail_plan;
mod file_fault;
mod file_pmem;
mod file_text;
mod file_words;
mod files;
mod image_file;
mod line;
mod listed_read;
mod lock;
mod mem_file;
mod mem_files;
mod mem_sink;
mod read_list;
mod reading;
mod real_files;
mod real_sink;
mod sink;
mod spill;
mod write_cache;
mod writing;

pub use edge_fault::EdgeFault;
pub use file_fault::FileFault;
pub use file_pmem::FilePmem;
pub use file_text::FileText;
pub use files::Files;
pub use listed_read::ListedRead;
pub use lock::Lock;
pub use mem_file::MemFile;
pub use mem_files::MemFiles;
pub use mem_sink::MemSink;
pub use reading::read_file;
pub use real_files::RealFiles;
pub use real_sink::RealSink;
pub use sink::Sink;
pub use writing::write_all;
