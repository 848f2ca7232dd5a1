//! `follow`: takes the packets of files in order, and so brings the image up to the leader that sent them.

ghost use Rattle.command_edges.specs.Command.{Meaning.FollowFiles};
ghost use Rattle.dude_follow.specs.Follower.{follower_sizes};
ghost use Rattle.dude_follow.specs.Packets.{IsPacket};
ghost use Rattle.dude_program.specs.Ended.{EndedAs, Ends};
ghost use Rattle.dude_program.specs.Follow.{FollowsFiles, followed_text};
ghost use Rattle.dude_program.specs.Taking.{FollowerRests, IsDropCount, IsPacketsFault, MeansPackets, TakesList, TakesText, TakesTexts};
ghost use Rattle.dude_program.specs.Work.{EndsBy};
ghost use Rattle.dude_program.specs.World.{world_of};
ghost use Rattle.pmem_trait.specs.Sights.{IsAtRest};
ghost use Rattle.std.specs.Prelude.{◌≡◌, ◌<◌, All, IfErr, IfOk, None, length, map};
ghost use Rattle.std.specs.Rc.{rc_str_bytes};

use crate::ended::Ended;
use command_edges::{Fault, print_text, read_packet_files};
use command_openings::open_and_announce;
use dude_base::bundle::Bundle;
use dude_base::sizes::Sizes;
use dude_follow::{Follower, PacketFault, Taken, read_packets};
use dude_io::{FileText, Files, Sink};
use pmem_trait::Medium;
use std::alloc::Global;
use std::rc::RcStr;

/// The most packets that are kept until those before them come.
const ROOM: u64 = 4_096;

// How many packets an answer drops; none where it says that one is strange.
fn dropped_by(taken: Taken) -> Option<u64>
    ensures { IsDropCount taken result }
{
    match taken {
        Taken::Strange => None,
        Taken::Dropped { .. } => Some(1),
        Taken::Old | Taken::Applied { .. } | Taken::Kept => Some(0),
    }
}

// Takes packets, those of the file of this number; answers how many were dropped.
fn take_packets<M: Medium>(
    packets: &[Bundle],
    file: u64,
    follower: &mut Follower<M>,
) -> Result<u64, Fault>
    requires rests { FollowerRests follower.old }
    requires packets { All (IsPacket (follower_sizes follower.old)) packets.now }
    ensures { TakesList packets.now file result follower.old follower.new }
{
    let mut dropped = 0;
    for (index, packet) in packets.iter().enumerate() {
        let taken = match follower.take(packet) {
            Ok(taken) => taken,
            Err(_) => return Err(Fault::Device),
        };
        match dropped_by(taken) {
            Some(more) => dropped += more,
            None => {
                return Err(Fault::Strange {
                    file,
                    packet: index as u64 + 1,
                });
            }
        }
    }
    Ok(dropped)
}

// The packets of the text of the file of this number.
fn packets_of(
    alloc: Global,
    text: &FileText,
    file: u64,
    sizes: &Sizes,
) -> Result<Vec<Bundle>, Fault>
    ensures read { IfOk result (λ packets. MeansPackets sizes.now text.now packets.items) }
    ensures fault { IfErr result (IsPacketsFault sizes.now text.now file) }
{
    let packet = match text {
        FileText::TooLong => 0,
        FileText::Whole(bytes) => match read_packets(alloc, bytes, sizes) {
            Ok(packets) => return Ok(packets),
            Err(PacketFault::NoMemory) => return Err(Fault::Memory),
            Err(PacketFault::Bad { packet }) => packet,
        },
    };
    Err(Fault::Text {
        file,
        row: packet,
        field: 0,
    })
}

// Takes the packets of the text of the file of this number; answers how many were dropped.
fn take_text<M: Medium>(
    alloc: Global,
    text: &FileText,
    file: u64,
    sizes: &Sizes,
    follower: &mut Follower<M>,
) -> Result<u64, Fault>
    requires rests { FollowerRests follower.old }
    requires sizes { follower_sizes follower.old ≡ sizes.now }
    ensures { TakesText sizes.now text.now file result follower.old follower.new }
{
    match packets_of(alloc, text, file, sizes) {
        Ok(packets) => take_packets(&packets, file, follower),
        Err(fault) => Err(fault),
    }
}

// Takes the packets of texts, text by text; answers how many were dropped.
fn take_texts<M: Medium>(
    alloc: Global,
    texts: &[FileText],
    sizes: &Sizes,
    follower: &mut Follower<M>,
) -> Result<u128, Fault>
    requires rests { FollowerRests follower.old }
    requires sizes { follower_sizes follower.old ≡ sizes.now }
    ensures { TakesTexts sizes.now texts.now result follower.old follower.new }
{
    let mut dropped: u128 = 0;
    for (index, text) in texts.iter().enumerate() {
        match take_text(alloc, text, index as u64 + 1, sizes, follower) {
            Ok(more) => dropped += more as u128,
            Err(fault) => return Err(fault),
        }
    }
    Ok(dropped)
}

// Prints the number reached, how many packets wait, and how many were dropped.
fn print_followed<K: Sink>(
    alloc: Global,
    number: u64,
    waiting: u64,
    dropped: u128,
    out: &mut K,
) -> Option<Fault>
    ensures { EndsBy K.sight (followed_text number waiting dropped) None result out.old out.new }
{
    match format!(in alloc; "last {number} waiting {waiting} dropped {dropped}\n") {
        Ok(text) => print_text(text.as_bytes(), out).err(),
        Err(_) => Some(Fault::Memory),
    }
}

/// Takes the packets of the files of these names, file by file, and applies them to the image.
pub fn follow<M: Medium, F: Files, K: Sink>(
    alloc: Global,
    names: &[RcStr],
    medium: M,
    files: &mut F,
    out: &mut K,
) -> Ended<M>
    requires some { 0 < length names.now }
    requires settled { IsAtRest (M.sight medium) }
    ensures ends { EndedAs (Ends (FollowFiles (map rc_str_bytes names.now)))
        M.sight F.sight K.sight medium files.old files.new out.old out.new result }
    ensures follows { FollowsFiles (map rc_str_bytes names.now)
        (world_of (M.sight medium) (F.sight files.old) (K.sight out.old))
        (world_of (M.sight result.medium) (F.sight files.new) (K.sight out.new)) result.fault }
{
    let texts = match read_packet_files(alloc, names, files) {
        Ok(texts) => texts,
        Err(fault) => return Ended::refused(alloc, fault, medium),
    };
    let opened = match open_and_announce(alloc, medium) {
        Ok(opened) => opened,
        Err((fault, medium)) => return Ended::refused(alloc, fault, medium),
    };
    let sizes = opened.sizes;
    let mut follower = match Follower::new(alloc, opened, ROOM) {
        Ok(follower) => follower,
        Err((_, opened)) => {
            return Ended::refused(alloc, Fault::Memory, opened.back.into_medium());
        }
    };
    match take_texts(alloc, &texts, &sizes, &mut follower) {
        Ok(dropped) => {
            let fault = print_followed(alloc, follower.number(), follower.waiting(), dropped, out);
            Ended::new(fault, follower.into_medium(), Vec::new(alloc))
        }
        Err(fault) => Ended::refused(alloc, fault, follower.into_medium()),
    }
}
