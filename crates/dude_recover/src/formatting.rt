//! A new image is made on a medium, where it fits.

ghost use Rattle.dude_recover.specs.Causes.{FitsImage, HasFormatCause, FormatCallsMade};
ghost use Rattle.dude_recover.specs.Formats.{FormatsTo, NoFormat};
ghost use Rattle.dude_recover.specs.NewImages.{IsNewHome, RestsNew, ShowsNewImage};
ghost use Rattle.pmem_trait.specs.Sights.{IsAtRest};
ghost use Rattle.std.specs.Prelude.{◌≡◌, IfOk, IfErr};

use crate::format_fault::FormatFault;
use crate::image_writing::write_image;
use dude_base::place::Place;
use dude_base::sizes::Sizes;
use pmem_trait::Medium;
use std::alloc::Global;
use tatp_layout::Layout;
use tatp_rows::populate;

/// Makes a new image of these sizes, and tells 0.
///
/// After `Device` the medium that is given back holds some of a new image. After another fault it is as it was.
pub fn format<M: Medium>(alloc: Global, medium: M, sizes: &Sizes) -> Result<M, (FormatFault, M)>
    requires settled { IsAtRest (M.sight medium) }
    ensures made { IfOk result (λ made. FormatsTo sizes.now (M.sight medium) (M.sight made)) }
    ensures refused { IfErr result (λ r. NoFormat sizes.now r.0 (M.sight medium) (M.sight r.1)) }
{
    let mut medium = medium;
    match make_image(alloc, &mut medium, sizes) {
        Ok(_) => Ok(medium),
        Err(fault) => Err((fault, medium)),
    }
}

/// Makes a new image of these sizes on a medium, tells 0, and gives the words of its home.
///
/// The magic number is cleared first and put last, so that from the first fence on a crash leaves nothing that looks
/// formatted, until the magic number is put again. After `Device` the medium holds some of a new image.
#[tactic(auto, using(crate::proofs::NewImages::refusing))]
pub fn make_image<M: Medium>(
    alloc: Global,
    m: &mut M,
    sizes: &Sizes,
) -> Result<Vec<u64>, FormatFault>
    requires settled { IsAtRest (M.sight m.old) }
    ensures len { (M.sight m.new).len ≡ (M.sight m.old).len }
    ensures fits { IfOk result (λ words. FitsImage sizes.now (M.sight m.old).len) }
    ensures home { IfOk result (λ words. IsNewHome sizes.now words.items) }
    ensures cause { IfErr result (HasFormatCause sizes.now (M.sight m.old) (M.sight m.new)) }
    ensures calls { FormatCallsMade sizes.now result (M.sight m.old) (M.sight m.new) }
    ensures images { ShowsNewImage sizes.now (M.sight m.old) (M.sight m.new) }
    ensures rests { IfOk result (λ w. RestsNew sizes.now w.items (M.sight m.old) (M.sight m.new)) }
{
    let lay = Layout::of(sizes)?;
    let place = Place::of(sizes);
    let has = m.len();
    let needs = place.words();
    if has < needs {
        return Err(FormatFault::Small { has, needs });
    }
    let home = populate(alloc, &lay)?;
    write_image(m, &place, &home)?;
    Ok(home)
}
