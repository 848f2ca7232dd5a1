//! A follower with room for few packets.

ghost use Rattle.dude_follow.specs.Follower.{follower_sizes};
ghost use Rattle.dude_follow.specs.Packets.{IsPacket};
ghost use Rattle.dude_recover.specs.Opened.{IsOpened};
ghost use Rattle.std.specs.Prelude.{All};

use crate::outcome::Outcome;
use crate::scene::{Scene, medium_of};
use dude_base::bundle::Bundle;
use dude_follow::{FollowFault, Follower, MAX_KEPT, PacketFault, Taken, read_packets};
use dude_recover::{Opened, open};
use pmem_fake::MemPmem;
use std::alloc::{AllocError, Global};

/// The name of an answer.
fn answer_name(answer: Result<Taken, FollowFault>) -> &'static str {
    match answer {
        Ok(Taken::Old) => "old",
        Ok(Taken::Strange) => "strange",
        Ok(Taken::Applied { .. }) => "applied",
        Ok(Taken::Kept) => "kept",
        Ok(Taken::Dropped { .. }) => "dropped",
        Err(FollowFault::Device) => "device",
        Err(FollowFault::Dead) => "dead",
    }
}

/// `follow ROOM NAME`: opens the image, and says what a follower with room for so many packets answers to those of a file.
pub fn followed(
    alloc: Global,
    scene: &Scene,
    room: u64,
    bytes: &[u8],
) -> Result<Outcome, AllocError> {
    let (answer, medium) = match open(alloc, medium_of(alloc, scene)?) {
        Ok(opened) => taken_by(alloc, opened, room, bytes)?,
        Err((fault, medium)) => (format!(in alloc; "{fault}\n")?, medium),
    };
    Outcome::new(alloc, scene.image, answer, medium)
}

/// What a follower over an opened image answers to packets, and its medium.
fn taken_by(
    alloc: Global,
    opened: Opened<MemPmem>,
    room: u64,
    bytes: &[u8],
) -> Result<(String, MemPmem), AllocError>
    requires { IsOpened opened }
{
    let sizes = opened.sizes;
    let mut follower = match Follower::new(alloc, opened, room.max(1).min(MAX_KEPT)) {
        Ok(follower) => follower,
        Err((none, _)) => return Err(none),
    };
    let answer = match read_packets(alloc, bytes, &sizes) {
        Ok(packets) => answers_to(alloc, &packets, &mut follower)?,
        Err(PacketFault::Bad { packet }) => format!(in alloc; "packet {packet} is bad\n")?,
        Err(PacketFault::NoMemory) => return Err(AllocError),
    };
    Ok((answer, follower.into_medium()))
}

/// The answers of a follower to packets, one behind another, and how many are kept then.
fn answers_to(
    alloc: Global,
    packets: &[Bundle],
    follower: &mut Follower<MemPmem>,
) -> Result<String, AllocError>
    requires { All (IsPacket (follower_sizes follower.old)) packets.now }
{
    let mut text = String::new(alloc);
    for packet in packets.iter() {
        let answer = follower.take(packet);
        text = format!(in alloc; "{text}{}, ", answer_name(answer))?;
    }
    format!(in alloc; "{text}{} kept\n", follower.waiting())
}
