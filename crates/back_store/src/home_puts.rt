//! The puts of home words, and their lines.

ghost use Rattle.back_store.specs.PutLines.{DecidesLine, IsLineAt, PutsHome, SettlesHome};
ghost use Rattle.dude_base.specs.Image.{image_words};
ghost use Rattle.dude_base.specs.declared.limits.TheConstants.{PAGE};
ghost use Rattle.redo_record.specs.BackCalls.{home_writes, lines_touched};
ghost use Rattle.std.specs.Prelude.{◌≡◌, ◌*◌, ◌<◌, ◌≤◌, All, length, vec_capacity};

use dude_base::limits::LINE;
use dude_base::place::Place;
use group_combine::Group;
use pmem_trait::{Failed, Medium, flush_all};

// The line of the home word that the write at index `k` puts.
fn line_at(place: &Place, group: &Group, k: u64) -> u64
    requires within { k < length group.now.writes }
    requires inside { All (λ w. w.at < place.now.pages * PAGE) group.now.writes }
    ensures { IsLineAt place.now group.now.writes k result }
{
    place.home(group.get(k).at) / LINE
}

// Whether the line of the write at index `k` isn't that of the write before it.
fn starts_line(place: &Place, group: &Group, k: u64) -> bool
    requires within { k < length group.now.writes }
    requires inside { All (λ w. w.at < place.now.pages * PAGE) group.now.writes }
    ensures { DecidesLine place.now group.now.writes k result }
{
    k == 0 || line_at(place, group, k - 1) != line_at(place, group, k)
}

/// Makes `lines` the lines of the words that the writes of the group put, of equal ones that follow one another only one.
pub fn line_list(place: &Place, group: &Group, lines: &mut Vec<u64>)
    requires inside { All (λ w. w.at < place.now.pages * PAGE) group.now.writes }
    requires room { length group.now.writes ≤ vec_capacity lines.old }
    ensures lines { lines.new.items ≡ lines_touched (home_writes place.now group.now.writes) }
    ensures capacity { vec_capacity lines.new ≡ vec_capacity lines.old }
{
    lines.clear();
    for k in 0..group.len() {
        if starts_line(place, group, k) {
            lines.push_reserved(line_at(place, group, k));
        }
    }
}

// Puts the words that the writes of the group put.
fn put_home<M: Medium>(m: &mut M, place: &Place, group: &Group) -> Result<(), Failed>
    requires inside { All (λ w. w.at < place.now.pages * PAGE) group.now.writes }
    requires room { image_words place.now ≤ (M.sight m.old).len }
    ensures len { (M.sight m.new).len ≡ (M.sight m.old).len }
    ensures made { PutsHome place.now group.now.writes result (M.sight m.old) (M.sight m.new) }
{
    for index in 0..group.len() {
        let write = group.get(index);
        m.put(place.home(write.at), write.value)?;
    }
    Ok(())
}

/// Makes the words that the writes of the group put durable.
#[tactic(auto, using(pmem_trait::proofs::GroupRuns::grouping))]
pub fn settle_home<M: Medium>(
    m: &mut M,
    place: &Place,
    group: &Group,
    lines: &[u64],
) -> Result<(), Failed>
    requires inside { All (λ w. w.at < place.now.pages * PAGE) group.now.writes }
    requires lines { lines.now ≡ lines_touched (home_writes place.now group.now.writes) }
    requires room { image_words place.now ≤ (M.sight m.old).len }
    ensures len { (M.sight m.new).len ≡ (M.sight m.old).len }
    ensures made { SettlesHome place.now group.now.writes lines.now result
        (M.sight m.old) (M.sight m.new) }
{
    put_home(m, place, group)?;
    flush_all(m, lines)?;
    m.fence()
}
