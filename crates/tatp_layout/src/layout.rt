//! Where the five tables and the index stand in a home of given sizes.

ghost use Rattle.dude_base.specs.Home.{in_whole_lines};
ghost use Rattle.dude_base.specs.Sizes.{IsAccepted, IsFirstOut};
ghost use Rattle.dude_base.specs.declared.limits.TheConstants.{PAGE};
ghost use Rattle.hash_table.specs.Table.{FitsTable};
ghost use Rattle.std.specs.Prelude.{◌≡◌, ◌<◌, ◌≤◌, ◌+◌, ◌*◌, IfOk, IfErr, IfSome};
ghost use Rattle.tatp_layout.specs.Layout.{access_table, behind_table, call_table, facility_table, index_pool, index_tree, number_table, shape_of, subscriber_table, table_at, tree_from, tree_where};
ghost use Rattle.tree_index.specs.Tree.{FitsTree};

use dude_base::limits::{LINE, MAX_CALLS, MAX_ROWS, ROW_WORDS, SUBSCRIBER_WORDS};
use dude_base::size_fault::SizeFault;
use dude_base::sizes::Sizes;
use hash_table::table::Table;
use record_heap::pool::Pool;
use std::marker::Model;
use tree_index::tree::Tree;

/// Where the five tables of a home stand, and its index. Contracts see the sizes that it was made for.
#[derive(Clone, Copy)]
pub struct Layout {
    sizes: Sizes,
    subscribers: Table,
    numbers: Table,
    access: Table,
    facilities: Table,
    calls: Table,
    index: Option<Tree>,
}

impl Model for Layout {
    ghost use Rattle.dude_base.specs.declared.sizes.Sizes.{Sizes};
    ghost use Rattle.tatp_layout.specs.Inside.{IsLayout, layout_of};

    ghost Value = { Sizes };

    ghost view = { λ l. l.sizes };

    ghost invariant = { IsLayout };

    ghost inverse = { layout_of };
}

impl Layout {
    /// The places in the home of an image of these sizes.
    pub fn of(sizes: &Sizes) -> Result<Layout, SizeFault>
        ensures ok { IfOk result (λ layout. (layout ≡ sizes.now) × IsAccepted sizes.now) }
        ensures fault { IfErr result (λ e. IsFirstOut e.field sizes.now) }
    {
        sizes.check()?;
        let kinds = MAX_ROWS * sizes.subscribers;
        let subscribers = table_from(0, sizes.subscribers, SUBSCRIBER_WORDS);
        let numbers = table_from(end_of(&subscribers), sizes.subscribers, ROW_WORDS);
        let access = table_from(end_of(&numbers), kinds, ROW_WORDS);
        let facilities = table_from(end_of(&access), kinds, ROW_WORDS);
        let calls = table_from(end_of(&facilities), sizes.calls, ROW_WORDS);
        let index = index_from(end_of(&calls), sizes.subscribers, sizes.index);
        Ok(Layout {
            sizes: *sizes,
            subscribers,
            numbers,
            access,
            facilities,
            calls,
            index,
        })
    }

    /// The sizes of the image.
    pub fn sizes(&self) -> Sizes
        ensures sizes { result ≡ self.now }
        ensures accepted { IsAccepted self.now }
    {
        self.sizes
    }

    /// The subscribers, by `s_id`.
    pub fn subscribers(&self) -> Table
        ensures table { result ≡ subscriber_table self.now }
        ensures fits { FitsTable result (self.now.pages * PAGE) }
    {
        self.subscribers
    }

    /// The subscribers' ids, by `sub_nbr`.
    pub fn numbers(&self) -> Table
        ensures table { result ≡ number_table self.now }
        ensures fits { FitsTable result (self.now.pages * PAGE) }
    {
        self.numbers
    }

    /// The access rows.
    pub fn access(&self) -> Table
        ensures table { result ≡ access_table self.now }
        ensures fits { FitsTable result (self.now.pages * PAGE) }
    {
        self.access
    }

    /// The special facilities.
    pub fn facilities(&self) -> Table
        ensures table { result ≡ facility_table self.now }
        ensures fits { FitsTable result (self.now.pages * PAGE) }
    {
        self.facilities
    }

    /// The call forwardings.
    pub fn calls(&self) -> Table
        ensures table { result ≡ call_table self.now }
        ensures fits { FitsTable result (self.now.pages * PAGE) }
    {
        self.calls
    }

    /// The keys of the subscribers by location, where there is an index.
    pub fn index(&self) -> Option<Tree>
        ensures tree { result ≡ tree_where self.now.index (index_tree self.now) }
        ensures fits { IfSome result (λ tree. FitsTree tree (self.now.pages * PAGE)) }
    {
        self.index
    }
}

// The tree of an index whose leaves begin at the word `base`.
fn index_from(base: u64, subscribers: u64, index: u64) -> Option<Tree>
    requires base { base ≤ 32 * MAX_CALLS }
    requires few { subscribers ≤ MAX_CALLS }
    ensures { result ≡ tree_where index (tree_from base subscribers) }
{
    if index == 0 {
        return None;
    }
    let leaves = pool_from(base, subscribers);
    let behind = leaves.first + in_lines(ROW_WORDS * subscribers);
    Some(Tree {
        leaves,
        inner: pool_from(behind, subscribers),
        root: base + 2,
    })
}

// A pool of an index whose header stands at the word `base`.
fn pool_from(base: u64, count: u64) -> Pool
    requires { base ≤ 64 * MAX_CALLS }
    ensures { result ≡ index_pool base count }
{
    Pool {
        base,
        first: base + LINE,
        size: ROW_WORDS,
        count,
    }
}

// A table that begins at the word `base`, with as many buckets as records.
fn table_from(base: u64, records: u64, size: u64) -> Table
    requires base { base ≤ 16 * MAX_CALLS }
    requires few { records ≤ MAX_CALLS }
    ensures { result ≡ table_at base (shape_of records size) }
{
    let at = base + LINE;
    Table {
        buckets: records,
        at,
        pool: Pool {
            base,
            first: at + in_lines(records),
            size,
            count: records,
        },
    }
}

// The word behind the table.
fn end_of(table: &Table) -> u64
    requires first { table.now.pool.first ≤ 32 * MAX_CALLS }
    requires small { table.now.pool.count * table.now.pool.size ≤ 8 * MAX_CALLS }
    ensures { result ≡ behind_table table.now }
{
    table.pool.first + in_lines(table.pool.count * table.pool.size)
}

fn in_lines(words: u64) -> u64
    requires { words ≤ 8 * MAX_CALLS }
    ensures { result ≡ in_whole_lines words }
{
    words.div_ceil(LINE) * LINE
}
