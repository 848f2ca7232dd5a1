//! What a command prints at its end, unless a fault came before.

ghost use Rattle.dude_program.specs.Ended.{EndsWork};
ghost use Rattle.dude_program.specs.Work.{EndsBy, lines_of, totals_of};
ghost use Rattle.dude_recover.specs.Opened.{IsOpened};
ghost use Rattle.std.specs.Prelude.{None};
ghost use Rattle.tatp_layout.specs.StandsFor.{StandsFor};
ghost use Rattle.tatp_model.specs.Database.{Database, IsInOrder, database_of};
ghost use Rattle.tatp_text.specs.Dump.{dump_text};
ghost use Rattle.tatp_text.specs.Summary.{summary_of};

use crate::ended::Ended;
use crate::worked::Worked;
use command_edges::{Fault, print_lines, print_text};
use dude_io::Sink;
use dude_recover::Opened;
use pmem_trait::Medium;
use std::alloc::Global;
use tatp_check::tables_of;
use tatp_model::{Done, Tables};
use tatp_text::{write_dump, write_summary};

/// Prints a line for each request done and the last number, unless a fault came before.
pub fn end_with_lines<M, K: Sink>(alloc: Global, worked: Worked<M>, out: &mut K) -> Ended<M>
    ensures work { EndsWork worked result }
    ensures printed { EndsBy K.sight (lines_of worked) worked.fault result.fault out.old out.new }
{
    let fault = match worked.fault {
        Some(fault) => Some(fault),
        None => print_lines(alloc, &worked.done, worked.last, out).err(),
    };
    Ended::new(fault, worked.medium, worked.done)
}

// Prints the summary of the requests done.
fn print_summary<K: Sink>(alloc: Global, done: &[Done], out: &mut K) -> Option<Fault>
    ensures { EndsBy K.sight (summary_of done.now) None result out.old out.new }
{
    let mut text = Vec::new(alloc);
    if write_summary(done, &mut text).is_err() {
        return Some(Fault::Memory);
    }
    print_text(&text, out).err()
}

/// Prints the summary of a load, unless a fault came before.
pub fn end_with_summary<M, K: Sink>(alloc: Global, worked: Worked<M>, out: &mut K) -> Ended<M>
    ensures work { EndsWork worked result }
    ensures printed { EndsBy K.sight (totals_of worked) worked.fault result.fault out.old out.new }
{
    let fault = match worked.fault {
        Some(fault) => Some(fault),
        None => print_summary(alloc, &worked.done, out),
    };
    Ended::new(fault, worked.medium, worked.done)
}

// Prints tables, and the last number.
fn print_tables<K: Sink>(alloc: Global, tables: &Tables, last: u64, out: &mut K) -> Option<Fault>
    requires { IsInOrder (database_of tables.now) }
    ensures { EndsBy K.sight (dump_text (database_of tables.now) last) None result out.old out.new }
{
    let mut text = Vec::new(alloc);
    if write_dump(tables, last, &mut text).is_err() {
        return Some(Fault::Memory);
    }
    print_text(&text, out).err()
}

/// Prints the tables of an opened image, and its number.
pub fn print_dump<M: Medium, K: Sink>(
    alloc: Global,
    opened: &Opened<M>,
    out: &mut K,
) -> Option<Fault>
    requires opened { IsOpened opened.now }
    ensures { (db : Database) → StandsFor opened.now.sizes opened.now.words.items db
        → EndsBy K.sight (dump_text db opened.now.number) None result out.old out.new }
{
    match tables_of(alloc, &opened.lay, &opened.words) {
        Ok(tables) => print_tables(alloc, &tables, opened.number, out),
        Err(_) => Some(Fault::Memory),
    }
}
