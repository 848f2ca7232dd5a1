//! Heads with numbers over the recovered one: which there are, and their clearing.

ghost use Rattle.dude_base.specs.Image.{image_words};
ghost use Rattle.dude_recover.specs.OpeningCalls.{AreStaleLines, ClearsHeads, PutsZeros, is_head_over, with_stale};
ghost use Rattle.image_recovery.specs.Faults.{IsReadFault, ReadsMade};
ghost use Rattle.pmem_trait.specs.Groups.{LinesFit};
ghost use Rattle.std.specs.Prelude.{◌≡◌, ◌+◌, ◌<◌, ◌≤◌, IfOk, IfErr, vec_capacity, vec_len};

use dude_base::limits::{HEADER, LINE};
use dude_base::place::Place;
use image_recovery::OpenFault;
use pmem_trait::{Failed, Medium, flush_all};
use redo_record::KIND;
use std::alloc::Global;

// Whether a cell with this tag is a head with a number over this one.
fn is_head_over(number: u64, tag: u64) -> bool
    ensures { result ≡ is_head_over number tag }
{
    tag / KIND == 1 && number < tag % KIND
}

// Adds a line, where its cell has the tag of such a head.
fn add_stale(lines: &mut Vec<u64>, line: u64, number: u64, tag: u64)
    requires { vec_len lines.old < vec_capacity lines.old }
    ensures items { lines.new.items ≡ with_stale line number tag lines.old.items }
    ensures len { vec_len lines.new ≤ vec_len lines.old + 1 }
    ensures capacity { vec_capacity lines.new ≡ vec_capacity lines.old }
{
    if is_head_over(number, tag) {
        lines.push_reserved(line);
    }
}

/// Lines of an image, or why they aren't known.
pub type FoundLines = Result<Vec<u64>, OpenFault>;

/// The lines of the cells that are heads with numbers over this one, in rising order. The medium is only read.
#[tactic(auto, using(pmem_trait::proofs::ReadRuns::reading))]
pub fn stale_lines<M: Medium>(alloc: Global, m: &mut M, place: &Place, number: u64) -> FoundLines
    requires room { image_words place.now ≤ (M.sight m.old).len }
    ensures len { (M.sight m.new).len ≡ (M.sight m.old).len }
    ensures reads { ReadsMade result (M.sight m.old) (M.sight m.new) }
    ensures fault { IfErr result IsReadFault }
    ensures fit { IfOk result (λ lines. LinesFit (M.sight m.old).len lines.items) }
    ensures lines { IfOk result (λ l. AreStaleLines place.now number (M.sight m.old) l.items) }
{
    let sizes = place.sizes();
    let cells = sizes.rings * sizes.cells;
    let mut lines = Vec::with_capacity(alloc, cells as usize)?;
    for cell in 0..cells {
        let line = HEADER / LINE + cell;
        let tag = m.read(line * LINE)?;
        add_stale(&mut lines, line, number, tag);
    }
    Ok(lines)
}

// Puts 0 in the first word of each of these lines.
fn clear_words<M: Medium>(m: &mut M, lines: &[u64]) -> Result<(), Failed>
    requires { LinesFit (M.sight m.old).len lines.now }
    ensures len { (M.sight m.new).len ≡ (M.sight m.old).len }
    ensures made { PutsZeros lines.now result (M.sight m.old) (M.sight m.new) }
{
    for line in lines {
        m.put(*line * LINE, 0)?;
    }
    Ok(())
}

/// Clears the first word of each of these lines, and makes that durable. Where there are none, no call is made.
#[tactic(auto, using(crate::proofs::OpeningRuns::clearing))]
pub fn clear_heads<M: Medium>(m: &mut M, lines: &[u64]) -> Result<(), Failed>
    requires { LinesFit (M.sight m.old).len lines.now }
    ensures len { (M.sight m.new).len ≡ (M.sight m.old).len }
    ensures made { ClearsHeads lines.now result (M.sight m.old) (M.sight m.new) }
{
    if lines.is_empty() {
        return Ok(());
    }
    clear_words(m, lines)?;
    flush_all(m, lines)?;
    m.fence()
}
