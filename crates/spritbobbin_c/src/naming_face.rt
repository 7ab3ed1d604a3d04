// The C face of what a place is, of a frame and of a multiframe.
ghost use Rattle.spritbobbin.specs.NamingFace.{PlaceFaceMet, MultiframePlaceFaceMet};

// What a place of a frame is; answer: the number of its kind, its tributary or 0. Returns the refusal number.
#[unsafe(no_mangle)]
pub extern "C" fn spritbobbin_place(level: u64, place: u64, answer: &mut [u64; 2]) -> u64
    ensures { PlaceFaceMet level place result answer.new }
{
    spritbobbin::naming_face::spritbobbin_place(level, place, answer)
}

// What a place of a multiframe is; answer: the number of its kind, and the digit fixed there or the channel, or 0. Returns the refusal number.
#[unsafe(no_mangle)]
pub extern "C" fn spritbobbin_multiframe_place(place: u64, answer: &mut [u64; 2]) -> u64
    ensures { MultiframePlaceFaceMet place result answer.new }
{
    spritbobbin::naming_face::spritbobbin_multiframe_place(place, answer)
}
