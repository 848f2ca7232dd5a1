//! Persistent memory in memory, with its whole history: for tests of what stands on a medium.
//!
//! `MemPmem` meets the model of `pmem_trait` and shows all of it: its state at each moment, and the calls made. Calls
//! can be made to fail by their count. A crash can be taken at each moment, with any choice of what it leaves.
#![tactic(auto)]

mod call_history;
mod image_fault;
mod mem_pmem;
mod replay;
mod word_state;

pub use image_fault::ImageFault;
pub use mem_pmem::MemPmem;
