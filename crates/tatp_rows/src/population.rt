//! The home of a new database is made.

ghost use Rattle.dude_base.specs.declared.limits.TheConstants.{PAGE};
ghost use Rattle.std.specs.Prelude.{◌≡◌, ℕ, ◌*◌, ◌≤◌, IfOk, IfErr, OnOk, length, slice_index};
ghost use Rattle.tatp_model.specs.Population.{population_calls};
ghost use Rattle.tatp_rows.specs.Causes.{CauseOf};
ghost use Rattle.tatp_rows.specs.Populated.{IsPopulated, IsPopulatedTo, LawOfPopulation, StandsForPopulation};

use crate::calls::{Calls, call_rows};
use crate::fault::PopFault;
use crate::indexing::{fill_index, free_index};
use crate::kinds::{Access, Facilities};
use crate::populated::fill_table;
use crate::subscribers::{Numbers, Subscribers};
use dude_base::limits::PAGE;
use std::alloc::Global;
use tatp_layout::Layout;

/// The home of a new database: the words of its five tables, and of an index where there is one, in whole
/// pages.
pub fn populate(alloc: Global, lay: &Layout) -> Result<Vec<u64>, PopFault>
    ensures room { OnOk result (population_calls lay.now.subscribers ≤ lay.now.calls) }
    ensures words { IfOk result (λ words. IsPopulated lay.now words.items) }
    ensures stands { IfOk result (λ words. StandsForPopulation lay.now words.items) }
    ensures cause { IfErr result (CauseOf lay.now) }
{
    let sizes = lay.sizes();
    let rows = call_rows(sizes.subscribers);
    if sizes.calls < rows {
        return Err(PopFault::TooFew {
            rows,
            calls: sizes.calls,
        });
    }
    let Ok(mut words) = vec![in alloc; 0; (sizes.pages * PAGE) as usize] else {
        return Err(PopFault::NoMemory);
    };
    fill_home(&mut words, lay);
    let Ok(indexed) = fill_index(words, lay) else {
        return Err(PopFault::NoMemory);
    };
    Ok(indexed)
}

// Fills the five tables of a home whose words are all 0, and frees the records of an index.
fn fill_home(words: &mut [u64], lay: &Layout)
    requires size { length words.old ≡ lay.now.pages * PAGE }
    requires room { population_calls lay.now.subscribers ≤ lay.now.calls }
    requires zeros { (i : ℕ) → slice_index words.old i ≡ 0 }
    ensures { IsPopulatedTo lay.now 0 words.new }
{
    fill_table::<Subscribers>(words, lay);
    fill_table::<Numbers>(words, lay);
    fill_table::<Access>(words, lay);
    fill_table::<Facilities>(words, lay);
    fill_table::<Calls>(words, lay);
    free_index(words, lay);
}

/// The words of a new home are all known: there is one such array.
pub fn law_of_population()
    ensures { LawOfPopulation }
{}
