//! Redo records in cells: how the words of an image are read, which calls lay a record into its ring, and what a crash
//! on the way may leave.
#![tactic(auto)]

mod append_calls;
mod back_laws;
mod bad_record;
mod cells;
mod decoding;
mod encoding;
mod group_call;
mod laws;
mod reproduce_calls;
mod tag;

pub use append_calls::AppendCalls;
pub use back_laws::{
    law_of_announce, law_of_empty_log, law_of_held_log, law_of_log_on_the_way,
    law_of_log_while_reproducing, law_of_persist, law_of_persisting, law_of_read_page,
    law_of_released_rings, law_of_reproduce, law_of_reproduced, law_of_reproducing, law_of_waiting,
};
pub use bad_record::BadRecord;
pub use cells::{slot_after, start_after};
pub use decoding::decode;
pub use encoding::{CELL_WRITES, RECORD_CELLS, SPAN_UNIT, cells_for, cells_of, encode};
pub use laws::{
    law_of_append, law_of_appending, law_of_covering, law_of_decoding, law_of_encoding,
    law_of_following, law_of_images_at_rest, law_of_recovery, law_of_release, law_of_replay,
    law_of_rest, law_of_room, law_of_settled_records,
};
pub use reproduce_calls::ReproduceCalls;
pub use tag::{CONTINUATION_KIND, HEAD_KIND, KIND};
