//! The limits of the store and the units that its image is made of.

ghost use Rattle.dude_base.specs.Limits.{LimitsAre};

/// Words of a line, the unit that is flushed.
pub const LINE: u64 = 8;

/// Words of a page, the unit that is loaded and evicted.
pub const PAGE: u64 = 64;

/// How many different words one transaction may write.
pub const MAX_WRITES: u64 = 24;

/// How many different words one bundle may write.
pub const MAX_BUNDLE_WRITES: u64 = 96;

/// How many numbers before its last one a bundle may cover.
pub const MAX_SPAN: u64 = 255;

/// The most subscribers; there is at least one.
pub const MAX_SUBSCRIBERS: u64 = 10_000;

/// The most call forwardings; there is room for at least one.
pub const MAX_CALLS: u64 = 120_000;

/// The most access rows of a subscriber, and the most facilities.
pub const MAX_ROWS: u64 = 4;

/// Words of a subscriber's record.
pub const SUBSCRIBER_WORDS: u64 = 8;

/// Words of a record of each other table.
pub const ROW_WORDS: u64 = 4;

/// The most log rings; there is at least one.
pub const MAX_RINGS: u64 = 16;

/// The most log rings of an image of version 1.
pub const MAX_RINGS_ONE: u64 = 8;

/// The fewest cells of a log ring.
pub const MIN_CELLS: u64 = 16;

/// The most cells of a log ring.
pub const MAX_CELLS: u64 = 4_096;

/// The most ordered indexes of an image.
pub const MAX_INDEX: u64 = 1;

/// The fewest frames, where there are as many pages; with fewer pages each has a frame.
pub const MIN_FRAMES: u64 = 32;

/// The most locks; there is at least one.
pub const MAX_LOCKS: u64 = 65_536;

/// How many locks there are where nothing else is asked for.
pub const DEFAULT_LOCKS: u64 = 1_024;

/// The most boxes of a thread; it has at least one.
pub const MAX_BOXES: u64 = 64;

/// How many boxes a thread has where nothing else is asked for.
pub const DEFAULT_BOXES: u64 = 8;

/// The greatest number of a transaction, 2^48 - 1.
pub const MAX_NUMBER: u64 = 281_474_976_710_655;

/// Words of an image before its rings.
pub const HEADER: u64 = 16;

/// The first word of an image: the bytes `DUDETMEM`, the least first.
pub const MAGIC: u64 = 0x4D45_4D54_4544_5544;

/// The second word of a new image.
pub const VERSION: u64 = 2;

/// The second word of an image whose records cover one number each, and have at most `MAX_WRITES` writes.
pub const VERSION_ONE: u64 = 1;

/// The word of an image that has its version.
pub const VERSION_WORD: u64 = 1;

/// The word of an image that has its mark.
pub const MARK: u64 = 8;

/// The numbers that the constants above are, stated apart from the code.
pub fn law_of_limits()
    ensures { LimitsAre }
{}
