//! Records of writes, and sets of reads.

use crate::page::Page;
use dude_base::redo::Redo;
use dude_base::write::Write;
use std::alloc::Global;
use word_space::read_set::ReadSet;

/// Makes a record of this number with these writes, and prints a copy of it, and before it each write that is one too many.
pub fn say_record(number: u64, writes: &[u64], page: &mut Page) {
    let mut redo = Redo::new(number);
    for write in writes.chunks(2) {
        if let [at, value] = *write
            && redo.push(Write { at, value }).is_err()
        {
            page.put(b"too wide");
            page.put_pair(at, value);
            page.line("");
        }
    }
    say_redo(&redo.copy(), page);
}

/// Prints a record: its number, and its writes.
pub fn say_redo(redo: &Redo, page: &mut Page) {
    page.put(b"record");
    page.put_numbers(&[redo.number()]);
    page.put(b":");
    for index in 0..redo.len() {
        let write = redo.write_at(index);
        page.put_pair(write.at, write.value);
    }
    page.line("");
}

/// Notes these reads, each a place and its word, and prints those that are noted.
pub fn say_reads(alloc: Global, reads: &[u64], page: &mut Page) {
    let mut set = ReadSet::new(alloc);
    for read in reads.chunks(2) {
        if let [at, value] = *read {
            if set.room().is_err() {
                page.cut();
                break;
            }
            set.add(at, value);
        }
    }
    page.put(b"reads");
    for index in 0..set.len() {
        let (at, value) = set.get(index);
        page.put_pair(at, value);
    }
    page.line("");
}
