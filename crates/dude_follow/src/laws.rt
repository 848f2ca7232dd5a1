//! The follower's laws, over every list of packets.

ghost use Rattle.dude_follow.specs.Following.{LawOfArrays, LawOfFollowing, LawOfReaching};
ghost use Rattle.dude_follow.specs.LeaderImages.{LawOfImages};

/// Whatever a link delivers of a leader's packets, the follower applies the leader's first ones, in order, each once.
pub fn law_of_following()
    ensures { LawOfFollowing }
{}

/// Where none was dropped the follower reaches all that the packets lead to.
pub fn law_of_reaching()
    ensures { LawOfReaching }
{}

/// The follower's array is the leader's at its number.
pub fn law_of_arrays()
    ensures { LawOfArrays }
{}

/// Each image that recovers along packets that lead on in the leader's list recovers to the leader's array.
pub fn law_of_images()
    ensures { LawOfImages }
{}
