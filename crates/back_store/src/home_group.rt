//! The records that are brought home together.

ghost use Rattle.back_store.specs.HomeGroup.{BringsHome, StandForLed};
ghost use Rattle.back_store.specs.Lanes.{AreLanes, AreLed};
ghost use Rattle.dude_base.specs.Image.{image_words};
ghost use Rattle.dude_base.specs.declared.limits.TheConstants.{MAX_NUMBER};
ghost use Rattle.std.specs.Prelude.{◌≡◌, ◌≤◌, [], IfOk};

use crate::home_puts::{line_list, settle_home};
use crate::lane::Lane;
use crate::merge::gather;
use dude_base::limits::{LINE, MARK};
use dude_base::place::Place;
use group_combine::Group;
use pmem_trait::{Failed, Medium, settle_group};
use std::alloc::{AllocError, Global};
use std::marker::Model;

/// The last writes of records that are reproduced together, and the lines that they touch. Its memory is taken when it is
/// made.
#[derive(Drop)]
pub struct HomeGroup {
    place: Place,
    group: Group,
    lines: Vec<u64>,
}

impl Model for HomeGroup {
    ghost use Rattle.back_store.specs.HomeGroup.{HomeGroupState};
    ghost use Rattle.back_store.specs.KeptHomeGroup.{IsKeptHomeGroup};

    ghost Value = { HomeGroupState };

    ghost view = { λ a. record { sizes = a.place; writes = a.group.writes } };

    ghost invariant = { IsKeptHomeGroup };
}

impl HomeGroup {
    /// No writes yet, with room for three of each cell of the image.
    pub fn new(alloc: Global, place: Place) -> Result<HomeGroup, AllocError>
        ensures { IfOk result (λ group. group ≡ record { sizes = place; writes = [] }) }
    {
        let sizes = place.sizes();
        let writes = 3 * (sizes.rings * sizes.cells);
        Ok(HomeGroup {
            place,
            group: Group::new(alloc, writes)?,
            lines: Vec::with_capacity(alloc, writes as usize)?,
        })
    }

    /// Takes the writes of the records that lead from one number to another.
    pub fn fill(&mut self, lanes: &[Lane], from: u64, to: u64)
        requires lanes { AreLanes self.old.sizes lanes.now }
        requires led { AreLed lanes.now from to }
        requires small { to ≤ MAX_NUMBER }
        ensures sizes { self.new.sizes ≡ self.old.sizes }
        ensures stand { StandForLed self.old.sizes lanes.now from to self.new.writes }
    {
        gather(&self.place, lanes, from, to, &mut self.group);
        self.group.finish();
        line_list(&self.place, &self.group, &mut self.lines);
    }

    /// Makes the records' words durable, and then the mark at this number.
    #[tactic(auto, using(pmem_trait::proofs::Runs::making), unfolding(redo_record::specs::BackCalls::reproduce_calls))]
    pub fn settle<M: Medium>(&self, m: &mut M, number: u64) -> Result<(), Failed>
        requires room { image_words self.now.sizes ≤ (M.sight m.old).len }
        ensures len { (M.sight m.new).len ≡ (M.sight m.old).len }
        ensures made { BringsHome self.now number result (M.sight m.old) (M.sight m.new) }
    {
        settle_home(m, &self.place, &self.group, &self.lines)?;
        settle_group(m, &[(MARK, number)], &[MARK / LINE])
    }
}
