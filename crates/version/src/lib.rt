// The version of the library, as the file VERSION has it. A crate of its own, so that a wrong version is refused at once.
#![tactic(auto)]

ghost use Rattle.version.specs.Version.{VersionMet};

const MAJOR: u64 = 0;

const MINOR: u64 = 2;

const PATCH: u64 = 0;

// MAJOR * 1000000 + MINOR * 1000 + PATCH.
pub fn number() -> u64
    ensures { VersionMet result }
{
    MAJOR * 1000000 + MINOR * 1000 + PATCH
}
