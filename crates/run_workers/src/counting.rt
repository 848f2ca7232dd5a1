//! How many lines of each file are printed.

ghost use Rattle.run_workers.specs.Printed.{ArePrinted, LeaveFew};
ghost use Rattle.std.specs.Prelude.{◌≡◌, ◌≤◌, [], length, map, vec_capacity};

use dude_stream::Outlet;
use tatp_model::request::Request;

/// Counts what is printed of each file: of its requests all but the lines that are left.
pub(crate) fn count_printed(files: &[Vec<Request>], outlets: &[Outlet], printed: &mut Vec<u64>)
    requires left { LeaveFew (map (λ f. f.items) files.now) outlets.now }
    requires none { printed.old.items ≡ [] }
    requires room { length files.now ≤ vec_capacity printed.old }
    ensures { ArePrinted (map (λ f. f.items) files.now) outlets.now printed.new.items }
{
    for file in 0..files.len() {
        let count = files[file].len() - outlets[file].left;
        printed.push_reserved(count as u64);
    }
}
