//! What a file that a command reads is to hold.

use tatp_text::MAX_BYTES;

/// What a file that a command reads is to hold.
#[derive(Clone, Copy)]
pub enum FileKind {
    /// Requests, one a record.
    Requests,
    /// What a run printed.
    Printed,
    /// Packets, one behind another.
    Packets,
}

impl FileKind {
    ghost use Rattle.command_edges.specs.CommandFile.{limit_of};
    ghost use Rattle.std.specs.Prelude.{◌≡◌};

    /// How many bytes such a file may have.
    pub fn limit(self) -> u64
        ensures { result ≡ limit_of self }
    {
        match self {
            FileKind::Requests | FileKind::Packets => MAX_BYTES as u64,
            FileKind::Printed => 268_435_456,
        }
    }
}
