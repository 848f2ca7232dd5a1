//! What a fault of opening an image is for a command.

ghost use Rattle.command_openings.specs.Faults.{fault_of_opening};
ghost use Rattle.std.specs.Prelude.{◌≡◌};

use command_edges::Fault;
use image_recovery::OpenFault;

/// What a fault of opening is for the command.
pub fn fault_of(fault: OpenFault) -> Fault
    ensures { result ≡ fault_of_opening fault }
{
    match fault {
        OpenFault::Unformatted => Fault::Unformatted,
        OpenFault::Damaged { line } => Fault::Damaged { line },
        OpenFault::NotDb { word } => Fault::NotDb { word },
        OpenFault::Device => Fault::Device,
        OpenFault::NoMemory => Fault::Memory,
    }
}
