//! Why an image file is not open, as a fault of the command.

use dude_io::EdgeFault;
use dude_program::Fault;

/// The fault of the command where its image file is not open.
pub fn fault_of(fault: EdgeFault) -> Fault {
    match fault {
        EdgeFault::Failed => Fault::Device,
        EdgeFault::NoMemory => Fault::Memory,
    }
}
