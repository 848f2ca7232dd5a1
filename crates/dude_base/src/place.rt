//! Where the parts of an image stand.

ghost use Rattle.dude_base.specs.Image.{cell_at, cell_start, home_word, image_words};
ghost use Rattle.dude_base.specs.Sizes.{IsAccepted};
ghost use Rattle.std.specs.Prelude.{◌≡◌, ◌<◌, ◌≤◌, ◌+◌, ◌*◌};

use crate::limits::{HEADER, LINE, PAGE};
use crate::sizes::Sizes;
use std::marker::Model;

/// Where the parts of an image of accepted sizes stand, as word numbers of the medium.
#[derive(Clone, Copy)]
pub struct Place {
    sizes: Sizes,
}

impl Model for Place {
    ghost use Rattle.dude_base.specs.Place.{IsPlace};
    ghost use Rattle.dude_base.specs.declared.sizes.Sizes.{Sizes};

    ghost Value = { Sizes };

    ghost view = { λ p. p.sizes };

    ghost invariant = { IsPlace };

    ghost inverse = { λ s. record { sizes = s } };
}

impl Place {
    /// The places in an image of these sizes.
    pub fn of(sizes: &Sizes) -> Place
        requires { IsAccepted sizes.now }
        ensures { result ≡ sizes.now }
    {
        Place { sizes: *sizes }
    }

    /// The sizes of the image.
    pub fn sizes(&self) -> Sizes
        ensures sizes { result ≡ self.now }
        ensures accepted { IsAccepted self.now }
    {
        self.sizes
    }

    /// The first word of a cell of a ring.
    pub fn cell(&self, ring: u64, cell: u64) -> u64
        requires ring { ring < self.now.rings }
        requires cell { cell < self.now.cells }
        ensures place { result ≡ cell_start self.now (cell_at ring cell) }
        ensures inside { result + LINE ≤ home_word self.now 0 }
    {
        let sizes = &self.sizes;
        HEADER + (ring * sizes.cells + cell) * LINE
    }

    /// A word of the home.
    pub fn home(&self, word: u64) -> u64
        requires { word < self.now.pages * PAGE }
        ensures place { result ≡ home_word self.now word }
        ensures inside { result < image_words self.now }
    {
        let sizes = &self.sizes;
        HEADER + sizes.rings * sizes.cells * LINE + word
    }

    /// The length of the image.
    pub fn words(&self) -> u64
        ensures { result ≡ image_words self.now }
    {
        let sizes = &self.sizes;
        HEADER + sizes.rings * sizes.cells * LINE + sizes.pages * PAGE
    }
}
