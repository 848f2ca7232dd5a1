//! Packets of a script, as the words that their bytes are.

use dude_io::MemFile;
use script_words::{number_of, numbers_of};
use std::alloc::{AllocError, Global};
use std::io;

/// Bytes of a word.
const WORD_BYTES: usize = 8;

/// Words of a cell.
const CELL_WORDS: usize = 8;

/// `packets NAME COUNT WORD ..`: a file of the first so many bytes of these words, each in eight bytes, the least first.
pub fn packet_file(alloc: Global, rest: &[&str]) -> Result<Option<MemFile>, AllocError> {
    let [name, count, words @ ..] = rest else {
        return Ok(None);
    };
    let (Some(count), Some(words)) = (number_of(count), numbers_of(alloc, words)?) else {
        return Ok(None);
    };
    let mut bytes = Vec::new(alloc);
    for word in &words {
        bytes.extend_from_slice(&word.to_le_bytes())?;
    }
    bytes.truncate(count as usize);
    Ok(Some(MemFile {
        name: String::from_str(alloc, name)?,
        bytes,
    }))
}

/// Whether these bytes are no text, but may be packets.
pub fn are_packets(bytes: &[u8]) -> bool {
    bytes.contains(&0)
}

/// Prints the words that the bytes are, those of a cell in a line, and how many bytes are left over.
pub fn print_cells(rt: &HostRuntime, bytes: &[u8]) -> io::Result<()> {
    let words = bytes.len() / WORD_BYTES;
    for at in 0..words {
        if at % CELL_WORDS == 0 {
            rt.print("*")?;
        }
        let mut word = [0; WORD_BYTES];
        word.copy_from_slice(&bytes[WORD_BYTES * at..WORD_BYTES * at + WORD_BYTES]);
        print!(rt; " {}", u64::from_le_bytes(word))?;
        if at % CELL_WORDS == CELL_WORDS - 1 || at + 1 == words {
            rt.print("\n")?;
        }
    }
    if bytes.len() % WORD_BYTES == 0 {
        Ok(())
    } else {
        println!(rt; "and {} bytes", bytes.len() % WORD_BYTES)
    }
}
