//! How large an image is, and which sizes it may have.

ghost use Rattle.dude_base.specs.Home.{in_whole_lines, index_length, pages_for, table_words, tables_length};
ghost use Rattle.dude_base.specs.Sizes.{AreTheSizes, CountsAreWithin, IsAccepted, IsFaultOf, IsFaultOfCounts, IsFrom, indexed_sizes, sizes_for, sizes_with};
ghost use Rattle.std.specs.Prelude.{◌≡◌, ◌<◌, ◌≤◌, ◌+◌, ◌*◌, ◌^◌, IfOk, IfErr, OnOk};

use crate::field::Field;
use crate::limits::{
    LINE, MAX_CALLS, MAX_CELLS, MAX_INDEX, MAX_RINGS, MAX_ROWS, MAX_SUBSCRIBERS, MIN_CELLS, PAGE,
    ROW_WORDS, SUBSCRIBER_WORDS,
};
use crate::size_fault::SizeFault;

/// How large an image is.
#[derive(Clone, Copy)]
pub struct Sizes {
    /// Subscribers, from 1 to `MAX_SUBSCRIBERS`.
    pub subscribers: u64,
    /// Room for call forwardings, from 1 to `MAX_CALLS`.
    pub calls: u64,
    /// Log rings, from 1 to `MAX_RINGS`.
    pub rings: u64,
    /// Cells of each ring, from `MIN_CELLS` to `MAX_CELLS`.
    pub cells: u64,
    /// Pages of the home, as many as its tables and the index need.
    pub pages: u64,
    /// 1 where there is an ordered index of the subscribers' locations, else 0; at most `MAX_INDEX`.
    pub index: u64,
}

impl Sizes {
    /// The sizes without an index, with the pages that these tables need.
    pub fn of(subscribers: u64, calls: u64, rings: u64, cells: u64) -> Result<Sizes, SizeFault>
        ensures ok { IfOk result (AreTheSizes (sizes_for subscribers calls rings cells)) }
        ensures fault { IfErr result (IsFaultOf (sizes_for subscribers calls rings cells)) }
    {
        Sizes::with_index(0, subscribers, calls, rings, cells)
    }

    /// The sizes with an index, with the pages that these tables and the index need.
    pub fn indexed(subscribers: u64, calls: u64, rings: u64, cells: u64) -> Result<Sizes, SizeFault>
        ensures ok { IfOk result (AreTheSizes (indexed_sizes subscribers calls rings cells)) }
        ensures fault { IfErr result (IsFaultOf (indexed_sizes subscribers calls rings cells)) }
    {
        Sizes::with_index(1, subscribers, calls, rings, cells)
    }

    // The sizes with this index.
    fn with_index(
        index: u64,
        subscribers: u64,
        calls: u64,
        rings: u64,
        cells: u64,
    ) -> Result<Sizes, SizeFault>
        ensures ok { IfOk result (AreTheSizes (sizes_with index subscribers calls rings cells)) }
        ensures fault { IfErr result (IsFaultOf (sizes_with index subscribers calls rings cells)) }
    {
        let mut sizes = Sizes {
            subscribers,
            calls,
            rings,
            cells,
            pages: 0,
            index,
        };
        sizes.check_counts()?;
        sizes.pages = sizes.pages_needed();
        Ok(sizes)
    }

    /// Whether an image may have these sizes.
    pub fn check(&self) -> Result<(), SizeFault>
        ensures ok { OnOk result (IsAccepted self.now) }
        ensures fault { IfErr result (IsFaultOf self.now) }
    {
        self.check_counts()?;
        if self.pages != self.pages_needed() {
            return Err(SizeFault {
                field: Field::Pages,
            });
        }
        Ok(())
    }

    // The pages that its tables and its index need.
    fn pages_needed(&self) -> u64
        requires { CountsAreWithin self.now }
        ensures { result ≡ pages_for self.now.subscribers self.now.calls self.now.index }
    {
        pages_of_home(self.subscribers, self.calls, self.index)
    }

    // The fields but for the pages.
    fn check_counts(&self) -> Result<(), SizeFault>
        ensures ok { OnOk result (CountsAreWithin self.now) }
        ensures fault { IfErr result (IsFaultOfCounts self.now) }
    {
        within(Field::Subscribers, self.subscribers, 1, MAX_SUBSCRIBERS)?;
        within(Field::Calls, self.calls, 1, MAX_CALLS)?;
        within(Field::Rings, self.rings, 1, MAX_RINGS)?;
        within(Field::Cells, self.cells, MIN_CELLS, MAX_CELLS)?;
        within(Field::Index, self.index, 0, MAX_INDEX)
    }
}

fn within(field: Field, value: u64, least: u64, most: u64) -> Result<(), SizeFault>
    ensures ok { OnOk result (IsFrom least most value) }
    ensures fault { IfErr result (λ e. (e.field ≡ field) × ¬ IsFrom least most value) }
{
    if least <= value && value <= most {
        Ok(())
    } else {
        Err(SizeFault { field })
    }
}

fn pages_of_home(subscribers: u64, calls: u64, index: u64) -> u64
    requires subscribers { subscribers ≤ MAX_SUBSCRIBERS }
    requires calls { calls ≤ MAX_CALLS }
    requires index { index ≤ 1 }
    ensures { result ≡ pages_for subscribers calls index }
{
    let words = words_of_tables(subscribers, calls) + words_of_index(subscribers, index);
    words.div_ceil(PAGE)
}

fn words_of_tables(subscribers: u64, calls: u64) -> u64
    requires subscribers { subscribers ≤ MAX_SUBSCRIBERS }
    requires calls { calls ≤ MAX_CALLS }
    ensures words { result ≡ tables_length subscribers calls }
    ensures few { result ≤ 2 ^ 32 }
{
    let rows = MAX_ROWS * subscribers;
    words_of_table(subscribers, subscribers, SUBSCRIBER_WORDS)
        + words_of_table(subscribers, subscribers, ROW_WORDS)
        + words_of_table(rows, rows, ROW_WORDS)
        + words_of_table(rows, rows, ROW_WORDS)
        + words_of_table(calls, calls, ROW_WORDS)
}

fn words_of_index(subscribers: u64, index: u64) -> u64
    requires subscribers { subscribers ≤ MAX_SUBSCRIBERS }
    requires index { index ≤ 1 }
    ensures words { result ≡ index_length subscribers index }
    ensures few { result ≤ 2 ^ 32 }
{
    if index == 0 {
        0
    } else {
        2 * words_of_table(0, subscribers, ROW_WORDS)
    }
}

// A header line, the links of the buckets and the records, each in whole lines.
fn words_of_table(buckets: u64, records: u64, size: u64) -> u64
    requires few { buckets ≤ MAX_CALLS }
    requires small { records * size ≤ MAX_CALLS * ROW_WORDS }
    ensures { result ≡ table_words (record { buckets = buckets; records = records; size = size }) }
{
    LINE + whole_lines(buckets) + whole_lines(records * size)
}

fn whole_lines(words: u64) -> u64
    requires { words ≤ MAX_CALLS * ROW_WORDS }
    ensures { result ≡ in_whole_lines words }
{
    words.div_ceil(LINE) * LINE
}
