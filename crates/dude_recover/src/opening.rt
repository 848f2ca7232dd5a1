//! The image on a medium is opened, or refused for the first reason that fits.

ghost use Rattle.dude_base.specs.Image.{image_words};
ghost use Rattle.dude_base.specs.declared.limits.TheConstants.{LINE, PAGE};
ghost use Rattle.dude_recover.specs.Answers.{IsNotOpened, IsOpenedFrom, OpensFound, StopsBy};
ghost use Rattle.dude_recover.specs.Opened.{IsOpened};
ghost use Rattle.dude_recover.specs.OpeningCalls.{RaisesVersion, SettlesImage};
ghost use Rattle.image_recovery.specs.Faults.{IsFaultOn};
ghost use Rattle.image_recovery.specs.Found.{IsFoundIn, IsFoundOn};
ghost use Rattle.pmem_trait.specs.Groups.{LinesFit};
ghost use Rattle.pmem_trait.specs.Sights.{IsAtRest};
ghost use Rattle.std.specs.Prelude.{◌≡◌, ◌*◌, ◌≤◌, length, IfOk, IfErr};

use crate::home::settle_home;
use crate::opened::Opened;
use crate::stale_heads::{clear_heads, stale_lines};
use dude_base::limits::{LINE, MARK, VERSION, VERSION_ONE, VERSION_WORD};
use dude_base::place::Place;
use image_recovery::{OpenFault, Recovered, recover};
use pmem_trait::{Failed, Medium, settle_group};
use std::alloc::Global;
use tatp_layout::Layout;

/// Opens the image on a medium: recovers it, puts the words of its home, then the mark at the recovered number; then clears
/// each head over that number, and raises an image of the first version to the newest one. Nothing is told.
///
/// It is refused for the first reason that fits: it isn't formatted, it is damaged, its home stands for no database.
pub fn open<M: Medium>(alloc: Global, medium: M) -> Result<Opened<M>, (OpenFault, M)>
    requires settled { IsAtRest (M.sight medium) }
    ensures opened { IfOk result IsOpened }
    ensures opens { IfOk result (IsOpenedFrom (M.sight medium)) }
    ensures refused { IfErr result (λ r. IsNotOpened r.0 (M.sight medium) (M.sight r.1)) }
{
    let mut medium = medium;
    let (lay, recovered) = match open_image(alloc, &mut medium) {
        Ok(found) => found,
        Err(fault) => return Err((fault, medium)),
    };
    match Opened::new(alloc, medium, lay, recovered.words, recovered.number) {
        Ok(opened) => Ok(opened),
        Err((refused, medium)) => Err((OpenFault::from(refused), medium)),
    }
}

// Recovers the image, and makes the calls that open it. All memory is taken before the first put.
fn open_image<M: Medium>(alloc: Global, m: &mut M) -> Result<(Layout, Recovered), OpenFault>
    ensures len { (M.sight m.new).len ≡ (M.sight m.old).len }
    ensures lawful { IfOk result (IsFoundOn (M.sight m.old)) }
    ensures recovered { IfOk result (IsFoundIn (M.sight m.old)) }
    ensures made { IfOk result (OpensFound (M.sight m.old) (M.sight m.new)) }
    ensures stopped { IfErr result (λ fault. StopsBy fault (M.sight m.old) (M.sight m.new)) }
    ensures refused { IfErr result (IsFaultOn (M.sight m.old)) }
{
    let (lay, recovered) = recover(alloc, m)?;
    let place = Place::of(&lay.sizes());
    let stale = stale_lines(alloc, m, &place, recovered.number)?;
    let version = m.read(VERSION_WORD)?;
    settle_image(
        m,
        &place,
        version,
        recovered.number,
        &recovered.words,
        &stale,
    )?;
    Ok((lay, recovered))
}

// Makes the home words durable, then the mark; then clears the heads over the number, and raises the version.
fn settle_image<M: Medium>(
    m: &mut M,
    place: &Place,
    version: u64,
    number: u64,
    words: &[u64],
    stale: &[u64],
) -> Result<(), Failed>
    requires room { image_words place.now ≤ (M.sight m.old).len }
    requires count { length words.now ≡ place.now.pages * PAGE }
    requires fit { LinesFit (M.sight m.old).len stale.now }
    ensures len { (M.sight m.new).len ≡ (M.sight m.old).len }
    ensures made { SettlesImage version place.now number words.now stale.now result
        (M.sight m.old) (M.sight m.new) }
{
    settle_home(m, place, words)?;
    settle_group(m, &[(MARK, number)], &[MARK / LINE])?;
    clear_heads(m, stale)?;
    raise_version(m, version)?;
    Ok(())
}

// Puts the newest version in the place of the first one, and makes it durable.
fn raise_version<M: Medium>(m: &mut M, version: u64) -> Result<(), Failed>
    requires room { LINE ≤ (M.sight m.old).len }
    ensures len { (M.sight m.new).len ≡ (M.sight m.old).len }
    ensures made { RaisesVersion version result (M.sight m.old) (M.sight m.new) }
{
    if version == VERSION_ONE {
        return settle_group(m, &[(VERSION_WORD, VERSION)], &[VERSION_WORD / LINE]);
    }
    Ok(())
}
