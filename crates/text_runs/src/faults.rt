//! The statuses and the lines of faults.

use crate::page::push_count;
use command_edges::{Fault, fault_text};
use std::alloc::AllocError;

/// A fault of each kind, with numbers of its own.
const FAULTS: [Fault; 17] = [
    Fault::Usage,
    Fault::File { file: 2 },
    Fault::Text {
        file: 2,
        row: 3,
        field: 4,
    },
    Fault::Small {
        has: 1231,
        needs: 1232,
    },
    Fault::TooFew {
        rows: 28,
        calls: 27,
    },
    Fault::Unformatted,
    Fault::Damaged { line: 18 },
    Fault::NotDb { word: 73 },
    Fault::ManyFiles { files: 3, rings: 2 },
    Fault::Frames {
        frames: 14,
        pages: 15,
    },
    Fault::FewSubscribers {
        subscribers: 1,
        files: 2,
    },
    Fault::Numbers {
        number: 281_474_976_710_654,
        requests: 1,
    },
    Fault::Device,
    Fault::Output,
    Fault::Memory,
    Fault::Audit { line: 3 },
    Fault::Strange { file: 1, packet: 2 },
];

/// The status of each fault, and its line.
pub fn faults(out: &mut Vec<u8>) -> Result<(), AllocError> {
    for fault in &FAULTS {
        push_count("status", u64::from(fault.status()), out)?;
        fault_text(fault, out)?;
    }
    Ok(())
}
