//! `ship`: runs the requests of files on one thread, and prints the bundles of its log as packets.

ghost use Rattle.command_edges.specs.Command.{Meaning.ShipFiles};
ghost use Rattle.dude_base.specs.Records.{HasNumbers};
ghost use Rattle.dude_program.specs.Ended.{EndedAs, EndsWork, Ends};
ghost use Rattle.dude_program.specs.Ship.{bytes_of_packets};
ghost use Rattle.dude_program.specs.Work.{EndsBy};
ghost use Rattle.pmem_trait.specs.Sights.{IsAtRest};
ghost use Rattle.std.specs.Prelude.{◌≡◌, ◌++◌, All, None, OnOk, map};
ghost use Rattle.std.specs.Rc.{rc_str_bytes};

use crate::ended::Ended;
use crate::prepared::{Prepared, prepare};
use crate::shipping::{Shipping, work_and_ship};
use command_edges::{Fault, print_text};
use dude_base::bundle::Bundle;
use dude_follow::write_packet;
use dude_io::{Files, Sink};
use pmem_trait::Medium;
use std::alloc::{AllocError, Global};
use std::rc::RcStr;

// Appends the bytes of packets.
fn put_packets(packets: &[Bundle], out: &mut Vec<u8>) -> Result<(), AllocError>
    requires numbers { All HasNumbers packets.now }
    ensures { OnOk result (out.new.items ≡ out.old.items ++ bytes_of_packets packets.now) }
{
    for packet in packets {
        write_packet(packet, out)?;
    }
    Ok(())
}

// Prints packets.
fn print_packets<K: Sink>(alloc: Global, packets: &[Bundle], out: &mut K) -> Option<Fault>
    requires numbers { All HasNumbers packets.now }
    ensures { EndsBy K.sight (bytes_of_packets packets.now) None result out.old out.new }
{
    let mut text = Vec::new(alloc);
    if put_packets(packets, &mut text).is_err() {
        return Some(Fault::Memory);
    }
    print_text(&text, out).err()
}

// Prints the packets of a run, unless a fault came before.
fn end_with_packets<M, K: Sink>(alloc: Global, shipping: Shipping<M>, out: &mut K) -> Ended<M>
    requires numbers { All HasNumbers shipping.packets.items }
    ensures work { EndsWork shipping.worked result }
    ensures printed { EndsBy K.sight (bytes_of_packets shipping.packets.items)
        shipping.worked.fault result.fault out.old out.new }
{
    let worked = shipping.worked;
    let fault = match worked.fault {
        Some(fault) => Some(fault),
        None => print_packets(alloc, &shipping.packets, out),
    };
    Ended::new(fault, worked.medium, worked.done)
}

/// Runs the requests of the files over the image, on one thread, and prints the bundles of its log as packets.
pub fn ship<M: Medium, F: Files, K: Sink>(
    alloc: Global,
    medium: M,
    names: &[RcStr],
    files: &mut F,
    out: &mut K,
) -> Ended<M>
    requires settled { IsAtRest (M.sight medium) }
    ensures ends { EndedAs (Ends (ShipFiles (map rc_str_bytes names.now)))
        M.sight F.sight K.sight medium files.old files.new out.old out.new result }
{
    match prepare(alloc, None, names, medium, files) {
        Ok(Prepared { lists, opened }) => {
            end_with_packets(alloc, work_and_ship(alloc, opened, &lists), out)
        }
        Err(ended) => ended,
    }
}
