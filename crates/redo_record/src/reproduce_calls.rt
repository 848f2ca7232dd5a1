//! The calls on the medium that reproduce bundles, as a list.

ghost use Rattle.dude_base.specs.declared.limits.TheConstants.{PAGE};
ghost use Rattle.redo_record.specs.BackCalls.{home_writes, lines_touched, reproduce_calls};
ghost use Rattle.std.specs.Prelude.{◌≡◌, ◌*◌, ◌^◌, ◌<◌, ◌≤◌, All, Some, length, slice_get};

use crate::group_call::group_call;
use dude_base::limits::{LINE, MARK};
use dude_base::place::Place;
use dude_base::write::Write;
use pmem_trait::Call;

// How many lines these writes of home words touch, of equal ones that follow one another only one; and the one at index
// `wanted`, where there are so many.
fn touched(place: &Place, writes: &[Write], wanted: u64) -> (u64, u64)
    requires home { All (λ w. w.at < place.now.pages * PAGE) writes.now }
    ensures count { result.0 ≡ length (lines_touched (home_writes place.now writes.now)) }
    ensures few { result.0 ≤ length writes.now }
    ensures line { wanted < result.0
        → slice_get (lines_touched (home_writes place.now writes.now)) wanted ≡ Some result.1 }
{
    let mut count = 0;
    let mut found = 0;
    let mut before = 0;
    for k in 0..writes.len() {
        let line = place.home(writes[k].at) / LINE;
        if k == 0 || line != before {
            if count == wanted {
                found = line;
            }
            count += 1;
        }
        before = line;
    }
    (count, found)
}

/// The calls that reproduce bundles by these writes up to a number, as a list: the home words are made durable, and then the
/// mark. They take no memory: a line is looked up among the writes.
#[derive(Drop)]
pub struct ReproduceCalls<'a> {
    place: Place,
    writes: &'a [Write],
    number: u64,
    lines: u64,
    ghost home: { All (λ w. w.at < place.pages * PAGE) writes.now },
    ghost few: { length writes.now < 2 ^ 62 },
    ghost few_lines: { lines ≤ length writes.now },
    ghost counted: { lines ≡ length (lines_touched (home_writes place writes.now)) },
}

impl<'a> ReproduceCalls<'a> {
    ghost use Rattle.redo_record.specs.CallLists.{reproduce_list};

    /// The calls that put these writes home and raise the mark to this number.
    pub fn of(place: &Place, writes: &'a [Write], number: u64) -> ReproduceCalls<'a>
        requires home { All (λ w. w.at < place.now.pages * PAGE) writes.now }
        requires few { length writes.now < 2 ^ 62 }
        ensures { reproduce_list result ≡ reproduce_calls place.now writes.now number }
    {
        let (lines, _) = touched(place, writes, 0);
        ReproduceCalls {
            place: *place,
            writes,
            number,
            lines,
        }
    }

    /// How many calls there are.
    pub fn len(&self) -> u64
        ensures { result ≡ length (reproduce_list self.now) }
    {
        self.writes.len() as u64 + self.lines + 4
    }

    /// The call at index `k`, counted from 0.
    pub fn get(&self, k: u64) -> Call
        requires { k < length (reproduce_list self.now) }
        ensures { slice_get (reproduce_list self.now) k ≡ Some result }
    {
        let puts = self.writes.len() as u64;
        if k < puts {
            let write = self.writes[k as usize];
            return Call::Put {
                at: self.place.home(write.at),
                value: write.value,
            };
        }
        let flush = k - puts;
        if flush < self.lines {
            let (_, line) = touched(&self.place, self.writes, flush);
            return Call::Flush(line);
        }
        if flush == self.lines {
            return Call::Fence;
        }
        group_call(
            &[(MARK, self.number)],
            &[MARK / LINE],
            flush - self.lines - 1,
        )
    }
}
