// A call that answers nothing but whether it is refused, as C is given it: the refusal's number, or 0.
ghost use Rattle.std.specs.Prelude.{◌≡◌};
ghost use Rattle.refusal.specs.Refusal.{refusal_in};

use refusal::Refusal;

pub fn number_in(done: Result<(), Refusal>) -> u64
    ensures { result ≡ refusal_in done }
{
    match done {
        Ok(()) => 0,
        Err(refusal) => u64::from(refusal),
    }
}
