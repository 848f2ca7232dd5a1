//! A sink that tells a gate which lines it took.

ghost use Rattle.std.specs.Prelude.{◌≡◌};

use crate::line_gate::LineGate;
use dude_io::Sink;
use pmem_trait::Failed;

/// A sink that tells a gate which lines it took. The first write behind which it has a line of each file waits for requests of
/// each file.
#[derive(Drop)]
pub struct LineSink<'a, K> {
    sink: K,
    gate: &'a LineGate,
    place: LinePlace,
    has_waited: bool,
}

impl<'a, K> LineSink<'a, K> {
    /// A sink of which the gate knows nothing yet.
    pub fn new(sink: K, gate: &'a LineGate) -> LineSink<'a, K> {
        LineSink {
            sink,
            gate,
            place: LinePlace::new(),
            has_waited: false,
        }
    }

    /// The sink that took the lines.
    pub fn inner(&self) -> &K {
        &self.sink
    }

    /// Tells the gate of lines that end in these bytes, and waits, where it is time, for requests.
    fn tell(&mut self, bytes: &[u8])
        ensures { self.new.sink ≡ self.old.sink }
    {
        note_lines(&mut self.place, self.gate, bytes);
        if !self.has_waited && self.gate.has_line_of_each() {
            self.has_waited = true;
            self.gate.wait_for_requests();
        }
    }
}

impl<K: Sink> Sink for LineSink<'_, K> {
    ghost sight = { λ it. K.sight it.sink };

    fn write(&mut self, piece: &[u8]) -> Result<u64, Failed> {
        match self.sink.write(piece) {
            Ok(taken) => {
                self.tell(&piece[..taken as usize]);
                Ok(taken)
            }
            Err(failed) => Err(failed),
        }
    }
}

/// Notes at the gate the lines that end in these bytes.
fn note_lines(place: &mut LinePlace, gate: &LineGate, bytes: &[u8]) {
    for byte in bytes {
        if let Some(file) = place.take(*byte) {
            gate.note_line(file);
        }
    }
}

/// A place in a line, in front of which its file stands, counted from 1.
#[derive(Drop)]
struct LinePlace {
    /// The number in front, as far as it has come.
    number: u64,
    is_in_number: bool,
}

impl LinePlace {
    /// In front of a line.
    fn new() -> LinePlace {
        LinePlace {
            number: 0,
            is_in_number: true,
        }
    }

    /// Goes over a byte. Where it ends a line that has a file, gives the file, counted from 0.
    fn take(&mut self, byte: u8) -> Option<u64> {
        if byte == b'\n' {
            let file = self.number.checked_sub(1);
            self.number = 0;
            self.is_in_number = true;
            return file;
        }
        self.is_in_number = self.is_in_number && byte.is_ascii_digit();
        if self.is_in_number {
            let digit = u64::from(byte.saturating_sub(b'0'));
            self.number = self.number.saturating_mul(10).saturating_add(digit);
        }
        None
    }
}
