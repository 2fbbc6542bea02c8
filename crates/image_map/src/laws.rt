//! Laws of images. The functions here do nothing: each carries a law.
ghost use Rattle.image_map.specs.Residents.{ResidentIsInCore, OthersStay};
ghost use Rattle.image_map.specs.Room.{RoomForAll};

/// There is a record for each block in core that a user owns, beside those of all copies that are
/// kept: however many blocks go to the drum, none finds it full.
#[tactic(auto, using(crate::proofs::Room::room_for_all))]
pub fn room_for_all()
    ensures { RoomForAll }
{}

/// The image of a resident user is the beginning of the bank: so a word that `store_in` puts there
/// changes that word of this image.
#[tactic(auto, using(crate::proofs::Residents::image_resident))]
pub fn resident_is_in_core()
    ensures { ResidentIsInCore }
{}

/// No other image changes while a resident user's program stores words.
#[tactic(auto, using(crate::proofs::Residents::image_stays))]
pub fn others_stay()
    ensures { OthersStay }
{}
