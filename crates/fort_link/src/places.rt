//! Places in files by places in the whole.
ghost use Rattle.std.specs.Prelude.{◌≡◌, ◌≤◌, length, map, sum};
ghost use Rattle.fort_link.specs.Lines.{taken_off};
ghost use Rattle.fort_link.specs.Spots.{StandsIn};

use crate::answer::Spot;
use crate::lines::lines;
use fort_base::{Bytes, List, Place};

/// The file in which a place of the whole stands, and its place there. A place of line 0 stands in
/// the first file, and one behind all lines in the last. The chapter is "Components and APIs".
///
/// It takes no memory, and time linear in the files.
pub fn spot(files: &List<Bytes>, place: Place) -> Spot
    requires count { (1 ≤ length files.now) × (length files.now ≤ 64) }
    requires small { sum (map length files.now) ≤ 1048576 }
    ensures { StandsIn files.now place result }
{
    spot_in(files.as_slice(), place)
}

/// The same of files in a slice.
fn spot_in(files: &[Bytes], place: Place) -> Spot
    requires count { (1 ≤ length files.now) × (length files.now ≤ 64) }
    requires small { sum (map length files.now) ≤ 1048576 }
    ensures { StandsIn files.now place result }
{
    let last = files.len() - 1;
    let mut before = 0u32;
    for i in 0..last {
        let here = lines(files[i].as_slice());
        if place.line <= before + here {
            return taken_off(i, before, place);
        }
        before += here;
    }
    taken_off(last, before, place)
}

/// The place in a file, behind so many lines of files.
fn taken_off(file: usize, before: u32, place: Place) -> Spot
    requires { file ≤ 64 }
    ensures { result ≡ record { file = file; place = taken_off before place } }
{
    Spot {
        file: file as u32,
        place: Place {
            line: place.line.saturating_sub(before),
            column: place.column,
        },
    }
}
