// The harbour: a universe of shore services, and worked cases of the whole.
#![tactic(auto)]

ghost use Rattle.std.specs.Prelude.{◌≡◌, min};
ghost use Rattle.cloud.specs.Cloud.{cloud_of};
ghost use Rattle.harbour.specs.Cases.{HarbourCases};
ghost use Rattle.harbour.specs.Harbour.{harbour_file, harbour_goal};
ghost use Rattle.harbour.specs.Runs.{slow};

use cloud::Cloud;
use table::limits::Limits;
use universe::held::Universe;
use universe::reading::read;

// The file of the harbour universe.
pub fn universe_file() -> [u8; 68]
    ensures { result ≡ harbour_file }
{
    // 3 types and 2 ports; the lock, the roster and the dispatcher, each with its states.
    *b"\x18\x40\
       \x20\0\0\0\0\0\0\0\0\x40\x80\0\0\0\0\0\0\0\0\
       \x20\0\0\0\0\0\0\0\0\x40\x40\0\0\0\x80\0\0\0\0\
       \x30\0\0\0\0\0\0\0\0\x40\0\0\0\0\x80\0\0\0\x20\0\0\0\0\x40\0\0\0\0"
}

// The goal of a dispatcher that serves, a byte for its one line.
pub fn goal() -> [u8; 1]
    ensures { result ≡ harbour_goal }
{
    [0x24]
}

// A fresh cloud of the harbour that puts two orders off before each that it decides, with room for so many instances.
pub fn slow_cloud(instances: u32) -> Cloud
    ensures { cloud_of result ≡ slow (min instances 256) }
{
    let mut universe = Universe::least();
    // The file is that of a universe, so it is read.
    let _ = read(&universe_file(), &mut universe);
    let limits = Limits {
        instances,
        bindings: 2048,
    };
    Cloud::open(universe, limits, 2)
}

// The worked cases hold, jointly: of the harbour's file, of lines, of plans, of the check, and of steps on a slow cloud.
pub fn cases_hold()
    ensures { HarbourCases }
{}
