// The version of the library.
ghost use Rattle.version.specs.Version.{VersionMet};

// Returns MAJOR * 1000000 + MINOR * 1000 + PATCH.
#[unsafe(no_mangle)]
pub extern "C" fn spritbobbin_version() -> u64
    ensures { VersionMet result }
{
    spritbobbin::version_face::spritbobbin_version()
}
