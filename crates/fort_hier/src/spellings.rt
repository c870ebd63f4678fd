//! Names by their spellings.
ghost use Rattle.std.specs.Prelude.{◌≡◌};
ghost use Rattle.fort_hier.specs.Names.{spelling};

use fort_base::Bytes;
use fort_tree::Name;

/// The spelling of a name; none past the names.
pub fn spelled<'a>(names: &'a [Bytes], name: Name) -> &'a [u8]
    ensures { result.now ≡ spelling names.now name }
{
    match names.get(name.id.0 as usize) {
        Some(bytes) => bytes.as_slice(),
        None => &[],
    }
}
