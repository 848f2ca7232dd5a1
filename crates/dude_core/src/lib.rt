//! The machine of running transactions with its medium, as a pure machine: one event after another,
//! single calls on the medium among them, each where the definitions allow it.
//!
//! It has the views of its threads, and over vectors the state that decides of each event whether a view may make it: which
//! word it is a step on, what becomes of that word, and what becomes of the view. No thread is here; a table that threads
//! share takes the same steps.
//!
//! Beside the machine stands the store behind its words, over vectors: the log at rest, the calls made on the medium, and
//! what was read of it; and the whole lists of calls that calls of the back are. What is done to it is done to the store of
//! the definitions.
#![tactic(auto)]

pub mod about;
mod advancing;
mod announce_call;
mod append_list;
mod box_event;
pub mod boxes;
mod call_list;
mod chain_writes;
mod conditions;
mod core_fault;
pub mod core_refusal;
mod core_word;
mod data_laws;
pub mod deed;
mod deeds;
mod device;
mod device_event;
mod dropped;
mod drops;
mod edits;
pub mod entry;
mod event;
pub mod filling;
mod first_lists;
mod fit;
mod gathered;
mod gathering;
pub mod hand;
mod laws;
mod leading;
mod logged_bundle;
mod machine;
mod meets;
mod moves;
mod named;
mod names;
mod next_calls;
mod notes;
pub mod numbers;
mod page_reads;
mod pages;
mod paging;
pub mod pairs;
pub mod part;
mod parted_views;
mod partings;
mod queries;
mod reading;
mod reads;
mod record_places;
mod replay_room;
mod replaying;
mod reproduce_list;
mod ring;
mod scans;
pub mod setup;
mod start;
pub mod state;
mod state_steps;
mod steps;
pub mod store;
mod store_queries;
mod told;
pub mod transaction;
pub mod turn;
mod turning;
mod turns;
pub mod view;
pub mod view_pages;
mod view_partings;
mod views;
pub mod waiting_bundle;
pub mod word;
mod words;
mod words_after;
mod write_scans;
mod writes;
mod writing;

pub use announce_call::AnnounceCall;
pub use call_list::CallList;
pub use core_fault::CoreFault;
pub use core_refusal::CoreRefusal;
pub use core_word::CoreWord;
pub use data_laws::{
    law_of_effect_calls, law_of_effects, law_of_on_medium, law_of_start_data, law_of_told,
};
pub use event::Event;
pub use fit::{Fit, fit_of};
pub use laws::law_of_events;
pub use machine::{Core, core_step};
pub use page_reads::PageReads;
