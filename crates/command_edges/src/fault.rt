//! Why a command was not carried out, the status that it ends with, and the line that it prints.

ghost use Rattle.command_edges.specs.Fault.{fault_line, fault_words};
ghost use Rattle.command_edges.specs.declared.fault.Fault.TheVariants.{Memory};
ghost use Rattle.std.specs.Fmt.{WritesOnOk};
ghost use Rattle.std.specs.Prelude.{◌≡◌, ◌++◌, decimal, OnOk, OnErr, Some};

use std::alloc::{AllocError, AllocFailed};
use std::fmt;

/// Why a command ended with a status other than 0. Files are counted from 1.
#[derive(Clone, Copy)]
pub enum Fault {
    /// The command words are refused.
    Usage,
    /// A file couldn't be read.
    File { file: u64 },
    /// A file's first bad record and its first bad field, both counted from 1. The field is 0 where the record's name or
    /// its count of fields is wrong, and the record is 0 where the file is too long. Of a file of packets the record is the
    /// first bad packet, and the field 0.
    Text { file: u64, row: u64, field: u64 },
    /// The medium has fewer words than the image needs.
    Small { has: u64, needs: u64 },
    /// The population has more call rows than may stand.
    TooFew { rows: u64, calls: u64 },
    /// The medium holds no image.
    Unformatted,
    /// The image breaks a rule of its layout.
    Damaged { line: u64 },
    /// The image's content is no database, for the word named.
    NotDb { word: u64 },
    /// There are more files than rings.
    ManyFiles { files: u64, rings: u64 },
    /// The frames are out of their limits.
    Frames { frames: u64, pages: u64 },
    /// There are fewer subscribers than files.
    FewSubscribers { subscribers: u64, files: u64 },
    /// The requests could draw numbers beyond the last.
    Numbers { number: u64, requests: u64 },
    /// The medium failed.
    Device,
    /// The sink failed.
    Output,
    /// There was no memory.
    Memory,
    /// What was given as printed is no one-thread run of the files from the image. The line is the first wrong one, counted
    /// from 1, or 0 where the text is too long.
    Audit { line: u64 },
    /// A packet of a file is none of the leader whose packets were taken before. Both are counted from 1.
    Strange { file: u64, packet: u64 },
}

impl From<AllocError> for Fault {
    ghost from_gives = { λ _ fault. fault ≡ Memory };

    fn from(_: AllocError) -> Fault {
        Fault::Memory
    }
}

impl Fault {
    ghost use Rattle.command_edges.specs.Fault.{status_of};
    ghost use Rattle.std.specs.Prelude.{◌≡◌, Some};

    /// The status that the program ends with.
    pub fn status(&self) -> u8
        ensures { result ≡ status_of (Some self.now) }
    {
        match self {
            Fault::Usage => 2,
            Fault::File { .. } => 3,
            Fault::Text { .. } => 4,
            Fault::Small { .. }
            | Fault::TooFew { .. }
            | Fault::Unformatted
            | Fault::Damaged { .. }
            | Fault::NotDb { .. }
            | Fault::ManyFiles { .. }
            | Fault::Frames { .. }
            | Fault::FewSubscribers { .. } => 5,
            Fault::Numbers { .. } => 9,
            Fault::Device => 6,
            Fault::Output => 7,
            Fault::Memory => 8,
            Fault::Audit { .. } => 10,
            Fault::Strange { .. } => 11,
        }
    }
}

impl fmt::Display for Fault {
    ghost output = { λ f. Some (fault_words f) };

    fn fmt<W: fmt::Write>(&self, f: &mut fmt::Formatter<W>) -> fmt::Result {
        match *self {
            Fault::Usage => f.write_str("usage"),
            Fault::File { file } => write!(f, "file {file}"),
            Fault::Text { file, row, field } => {
                write!(f, "file {file} record {row} field {field}")
            }
            Fault::Small { has, needs } => write!(f, "too small: has {has}, needs {needs}"),
            Fault::TooFew { rows, calls } => write!(f, "too few calls: {rows} rows, {calls} calls"),
            Fault::Unformatted => f.write_str("unformatted"),
            Fault::Damaged { line } => write!(f, "damaged line {line}"),
            Fault::NotDb { word } => write!(f, "not a database, word {word}"),
            Fault::ManyFiles { files, rings } => {
                write!(f, "too many files: {files} files, {rings} rings")
            }
            Fault::Frames { frames, pages } => write!(f, "frames {frames}, pages {pages}"),
            Fault::FewSubscribers { subscribers, files } => write_all(
                f,
                "too few subscribers: ",
                subscribers,
                " subscribers, ",
                files,
                " files",
            ),
            Fault::Numbers { number, requests } => {
                write!(f, "numbers: {number}, {requests} requests")
            }
            Fault::Device => f.write_str("device"),
            Fault::Output => f.write_str("output"),
            Fault::Memory => f.write_str("memory"),
            Fault::Audit { line } => write!(f, "audit line {line}"),
            Fault::Strange { file, packet } => write!(f, "strange packet {packet} of file {file}"),
        }
    }
}

/// Writes two texts, each with a number behind it, and a last text.
fn write_all<W: fmt::Write>(
    f: &mut fmt::Formatter<W>,
    first: &str,
    number: u64,
    next: &str,
    other: u64,
    last: &str,
) -> fmt::Result
    ensures { WritesOnOk W.write_str_gives f.old result
        (first.now ++ decimal number ++ next.now ++ decimal other ++ last.now) f.new }
{
    write!(f, "{first}{number}{next}{other}{last}")
}

impl<T: Drop> From<AllocFailed<T>> for Fault {
    ghost from_gives = { λ _ fault. fault ≡ Memory };

    fn from(_: AllocFailed<T>) -> Fault {
        Fault::Memory
    }
}

/// Appends the fault's line. `out` is as it was where there is no memory.
pub fn fault_text(fault: &Fault, out: &mut Vec<u8>) -> Result<(), AllocError>
    ensures ok { OnOk result (out.new.items ≡ out.old.items ++ fault_line fault.now) }
    ensures err { OnErr result (out.new.items ≡ out.old.items) }
{
    let line = format!(in *out.allocator(); "{fault}\n")?;
    out.extend_from_slice(line.as_bytes())
}
