//! Rows, printed with all their fields.

ghost use Rattle.dude_base.specs.declared.limits.TheConstants.{PAGE};
ghost use Rattle.std.specs.Prelude.{◌≡◌, ◌*◌};
ghost use Rattle.word_space.specs.Flats.{flat_sight};

use crate::home::is_home;
use crate::page::Page;
use dude_base::limits::ROW_WORDS;
use tatp_layout::{Layout, get_call, get_fac};
use tatp_model::{AccessRow, CallRow, FacRow, SubRow, Tables};
use word_space::flat::Flat;
use word_space::words::Words;

/// Prints the rows in records of the facilities or of the call rows, of which the numbers say the first one's place and how many
/// they are.
pub fn say_records(lay: &Layout, flat: &mut Flat, numbers: &[u64], page: &mut Page) {
    let [first, count] = *numbers else {
        return page.line("no command");
    };
    for index in 0..count {
        let at = first.saturating_add(index.saturating_mul(ROW_WORDS));
        if is_home(lay, flat.len()) {
            say_record_at(lay, flat, at, page);
        }
    }
}

/// Prints the row in the record of a facility or of a call row.
fn say_record_at(lay: &Layout, flat: &mut Flat, at: u64, page: &mut Page)
    requires { (flat_sight flat.old).count ≡ lay.now.pages * PAGE }
{
    if lay.facilities().pool.has(at) {
        match get_fac(lay, flat, at) {
            Ok(row) => say_facility(&row, page),
            Err(_) => page.cut(),
        }
    } else if lay.calls().pool.has(at) {
        match get_call(lay, flat, at) {
            Ok(row) => say_call(&row, page),
            Err(_) => page.cut(),
        }
    }
}

/// Prints the rows of all tables.
pub fn say_tables(tables: &Tables, page: &mut Page) {
    for row in &tables.subscribers {
        say_subscriber(row, page);
    }
    for row in &tables.access {
        say_access(row, page);
    }
    for row in &tables.facilities {
        say_facility(row, page);
    }
    for row in &tables.calls {
        say_call(row, page);
    }
}

/// Prints a subscriber: its id, its phone number, ten bits, ten numbers below 16, ten bytes, and two locations.
fn say_subscriber(row: &SubRow, page: &mut Page) {
    page.put(b"subscriber");
    page.put_numbers(&[row.s_id, row.sub_nbr]);
    put_bytes(&row.bits, page);
    put_bytes(&row.hexes, page);
    put_bytes(&row.bytes, page);
    page.numbers("", &[row.msc, row.vlr]);
}

/// Prints an access row: its subscriber, its type, two bytes, three letters and five letters.
fn say_access(row: &AccessRow, page: &mut Page) {
    let info = &row.info;
    page.put(b"access");
    page.put_numbers(&[row.s_id, row.ai_type]);
    put_bytes(&[info.data1, info.data2], page);
    page.put(b" ");
    page.put(&info.data3);
    page.put(b" ");
    page.put(&info.data4);
    page.line("");
}

/// Prints a facility: its subscriber, its type, whether it is active, two bytes and five letters.
fn say_facility(row: &FacRow, page: &mut Page) {
    page.put(b"facility");
    page.put_numbers(&[row.s_id, row.sf_type]);
    put_bytes(&[row.is_active, row.error_cntrl, row.data_a], page);
    page.put(b" ");
    page.put(&row.data_b);
    page.line("");
}

/// Prints a call row: its subscriber, the type of its facility, its two hours and its number.
fn say_call(row: &CallRow, page: &mut Page) {
    let fields = [
        row.s_id,
        row.sf_type,
        row.start_time,
        row.end_time,
        row.numberx,
    ];
    page.numbers("call", &fields);
}

/// Appends small numbers, each behind a space.
fn put_bytes(numbers: &[u8], page: &mut Page) {
    for number in numbers {
        page.put_numbers(&[u64::from(*number)]);
    }
}
