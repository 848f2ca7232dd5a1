//! The calls that read a page of the home, as a list of calls.

ghost use Rattle.std.specs.Prelude.{◌≡◌, ◌<◌};

use crate::call_list::CallList;
use dude_base::limits::PAGE;
use dude_base::place::Place;
use pmem_trait::Call;

/// The calls that read a page of the home.
#[derive(Clone, Copy)]
pub struct PageReads {
    place: Place,
    page: u64,
    ghost inside: { page < place.pages },
}

impl PageReads {
    ghost use Rattle.dude_core.specs.PageReads.{page_list};
    ghost use Rattle.redo_record.specs.BackCalls.{read_page_calls};

    /// The calls that read this page.
    pub fn of(place: &Place, page: u64) -> PageReads
        requires { page < place.now.pages }
        ensures { page_list result ≡ read_page_calls place.now page }
    {
        PageReads {
            place: *place,
            page,
        }
    }
}

impl CallList for PageReads {
    ghost use Rattle.dude_core.specs.PageReads.{page_list};

    ghost calls = { page_list };

    fn len(&self) -> u64 {
        PAGE
    }

    fn get(&self, k: u64) -> Call {
        // The sizes are accepted, so there are few pages.
        let _sizes = self.place.sizes();
        Call::Read(self.place.home(self.page * PAGE + k))
    }
}
