// The C face of carrying digits from slice to slice.
ghost use Rattle.copying.specs.Copying.{CopyMet};

use crate::refused;

// Puts count digits of `from`, its digit first and on, at digit `at` of `to`. Returns the refusal number.
#[unsafe(no_mangle)]
pub extern "C" fn spritbobbin_copy_digits(
    to: &mut [u8],
    at: u64,
    from: &[u8],
    first: u64,
    count: u64,
) -> u64
    ensures { CopyMet to.old at from.now first count result to.new }
{
    let done = copying::copy_digits(to, at as usize, from, first as usize, count as usize);
    refused::number_in(done)
}
