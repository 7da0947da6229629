// A place in a key's tree, and what a hash of RFC 8554 begins with: the identifier, a number in four bytes and a tag of two equal bytes.
ghost use Rattle.lms.specs.Begun.{Begun};

use sha256::Sha256;
use wire::u32_bytes;

// A key's identifier, and the number of a leaf or of a node of its tree.
#[derive(Clone, Copy)]
pub struct Place {
    pub id: [u8; 16],
    pub number: u32,
}

pub fn begun(place: Place, tag: u8) -> Sha256
    ensures { Begun place.id place.number tag result }
{
    let four = u32_bytes(place.number);
    Sha256::new().feed(&place.id).feed(&four).feed(&[tag, tag])
}
