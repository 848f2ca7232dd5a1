//! The check of homes with some words changed, and requests on the tables for which they stand.

ghost use Rattle.std.specs.Prelude.{All, IfOk};
ghost use Rattle.tatp_model.specs.Database.{database_of, IsInOrder};
ghost use Rattle.tatp_model.specs.Request.{IsInRange};

use crate::home::{done_at, is_home};
use crate::page::Page;
use crate::rows::say_tables;
use crate::words::changed;
use std::alloc::Global;
use tatp_check::{CheckFault, check, tables_of};
use tatp_layout::Layout;
use tatp_model::step::step;
use tatp_model::{Request, Tables};

/// Checks the home with these words changed, and prints the verdict, or the rows of its tables where `with_rows` says so.
pub fn say_check(
    alloc: Global,
    lay: &Layout,
    words: &[u64],
    changes: &[u64],
    with_rows: bool,
    page: &mut Page,
) {
    match tables_with(alloc, lay, words, changes) {
        Ok(tables) if with_rows => say_tables(&tables, page),
        Ok(_) => page.line("a database"),
        Err(CheckFault::NotDb { word }) => page.numbers("wrong at word", &[word]),
        Err(CheckFault::NoMemory) => page.cut(),
    }
}

/// The tables for which the home stands with these words changed.
fn tables_with(
    alloc: Global,
    lay: &Layout,
    words: &[u64],
    changes: &[u64],
) -> Result<Tables, CheckFault>
    ensures { IfOk result (λ tables. IsInOrder (database_of tables)) }
{
    let Ok(words) = changed(alloc, words, changes) else {
        return Err(CheckFault::NoMemory);
    };
    if !is_home(lay, words.len() as u64) {
        return Err(CheckFault::NotDb { word: 0 });
    }
    check(alloc, lay, &words)?;
    match tables_of(alloc, lay, &words) {
        Ok(tables) => Ok(tables),
        Err(_) => Err(CheckFault::NoMemory),
    }
}

/// Performs requests one after another on the tables for which the home stands, of each prints how many call rows stand then
/// and the reply, and prints the rows that are left.
pub fn say_steps(alloc: Global, lay: &Layout, words: &[u64], requests: &[Request], page: &mut Page)
    requires { All IsInRange requests.now }
{
    let Ok(mut tables) = tables_with(alloc, lay, words, &[]) else {
        return page.line("no database");
    };
    let limit = lay.sizes().calls;
    if tables.calls.len() as u64 > limit {
        return page.line("more call rows than room");
    }
    for request in requests {
        match step(alloc, &mut tables, limit, request) {
            Ok(reply) => page.done(&done_at(0, 0, tables.calls.len() as u64, reply)),
            Err(_) => page.cut(),
        }
    }
    say_tables(&tables, page);
}

/// Changes each word from `first` to before `end` to each of these values, one at a time, and prints for each value the words
/// at which the check accepts it.
pub fn say_accepted(alloc: Global, lay: &Layout, words: &[u64], numbers: &[u64], page: &mut Page) {
    let [first, end, values @ ..] = numbers else {
        return page.line("no command");
    };
    for value in values {
        let mut places = Vec::new(alloc);
        for place in *first..*end {
            if is_accepted(alloc, lay, words, &[place, *value]) && places.push(place).is_err() {
                page.cut();
            }
        }
        page.put_number(*value);
        page.put(b":");
        put_runs(&places, page);
        page.line("");
    }
}

/// Whether the check accepts the home with this word changed.
fn is_accepted(alloc: Global, lay: &Layout, words: &[u64], change: &[u64]) -> bool {
    match changed(alloc, words, change) {
        Ok(words) => is_home(lay, words.len() as u64) && check(alloc, lay, &words).is_ok(),
        Err(_) => false,
    }
}

/// Prints rising numbers, each run of them by its first and its last one.
fn put_runs(numbers: &[u64], page: &mut Page) {
    for number in numbers {
        if !numbers.contains(&number.wrapping_sub(1)) {
            page.put_numbers(&[*number]);
        } else if !numbers.contains(&number.wrapping_add(1)) {
            page.put(b"-");
            page.put_number(*number);
        }
    }
}
