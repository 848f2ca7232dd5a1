//! How the words of an image are shared out, by its header.

ghost use Rattle.std.specs.Prelude.{◌+◌, ◌≤◌};

/// How the words of a formatted image are shared out.
#[derive(Clone, Copy)]
pub struct Shape {
    /// The version that the image names, 1 or 2.
    pub version: u64,
    /// How many cells the rings have together.
    pub all_cells: u64,
    /// How many cells each ring has.
    pub cells: u64,
    /// How many home words there are.
    pub home: u64,
    ghost few_cells: { all_cells ≤ 65536 },
    ghost some: { 16 ≤ cells },
    ghost few: { cells ≤ 4096 },
    ghost small: { home ≤ 2000000 },
}

impl Shape {
    /// The shape that an image names, where it is formatted.
    pub fn of(image: &[u64]) -> Option<Shape> {
        if image.len() < 8 || image[0] != 0x4D45_4D54_4544_5544 {
            return None;
        }
        // The most rings and indexes of an image of this version.
        let (rings, indexes) = match image[1] {
            1 => (8, 0),
            2 => (16, 1),
            _ => return None,
        };
        if image[4] > rings || image[7] > indexes {
            return None;
        }
        let shape = Shape::of_sizes(
            image[1], image[2], image[3], image[4], image[5], image[6], image[7],
        )?;
        if (image.len() as u64) < shape.home_start() + shape.home {
            return None;
        }
        Some(shape)
    }

    // The shape of these sizes, where they are accepted.
    fn of_sizes(
        version: u64,
        subscribers: u64,
        calls: u64,
        rings: u64,
        cells: u64,
        pages: u64,
        index: u64,
    ) -> Option<Shape> {
        if subscribers < 1 || subscribers > 10_000 || calls < 1 || calls > 120_000 {
            return None;
        }
        if rings < 1 || rings > 16 || cells < 16 || cells > 4_096 {
            return None;
        }
        if pages != pages_for(subscribers, calls, index) {
            return None;
        }
        Some(Shape {
            version,
            all_cells: rings * cells,
            cells,
            home: 64 * pages,
        })
    }

    /// The first home word.
    pub fn home_start(&self) -> u64
        ensures { result ≤ 524304 }
    {
        16 + 8 * self.all_cells
    }
}

// The pages of five tables, and of an index where there is one.
fn pages_for(subscribers: u64, calls: u64, index: u64) -> u64
    requires subscribers { subscribers ≤ 10000 }
    requires calls { calls ≤ 120000 }
    ensures { result ≤ 31250 }
{
    let rows = table_words(subscribers, 8 * subscribers)
        + table_words(subscribers, 4 * subscribers);
    let parts = 2 * table_words(4 * subscribers, 16 * subscribers);
    let tree = if index == 0 {
        0
    } else {
        2 * table_words(0, 4 * subscribers)
    };
    (rows + parts + table_words(calls, 4 * calls) + tree + 63) / 64
}

// A line, the links of the buckets, the records: each in whole lines.
fn table_words(buckets: u64, records: u64) -> u64
    requires few { buckets ≤ 120000 }
    requires small { records ≤ 480000 }
    ensures { result ≤ buckets + records + 22 }
{
    8 + (buckets + 7) / 8 * 8 + (records + 7) / 8 * 8
}
