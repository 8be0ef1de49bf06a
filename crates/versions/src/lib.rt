// The versions of the format of point sheets (specs/Versions.antt): all that depends on them stands
// here.
#![tactic(auto)]

ghost use Rattle.std.specs.Prelude.{◌≡◌};
ghost use Rattle.versions.specs.Versions.{known, allowed, version_for};

// Whether a version is read.
#[tactic(auto, unfolding(crate::specs::Versions::known))]
pub fn known(version: u64) -> bool
    ensures { result ≡ known version }
{
    version == 1
}

// Whether a sheet of a version may have so many rows.
#[tactic(auto, unfolding(crate::specs::Versions::allowed))]
pub fn allowed(version: u64, count: usize) -> bool
    ensures { result ≡ allowed version count }
{
    count <= 1000
}

// The version in which so many rows are written.
#[tactic(auto, unfolding(crate::specs::Versions::version_for))]
pub fn version_for(count: usize) -> u64
    ensures { result ≡ version_for count }
{
    1
}
