//! Names by their numbers and by their spellings.
ghost use Rattle.std.specs.Prelude.{◌≡◌};
ghost use Rattle.fort_link_rules.specs.Units as spec;
ghost use Rattle.fort_tree.specs.Tokens.{is_spelled};

use fort_base::Bytes;
use fort_tree::Name;

/// Whether two names are one.
pub(crate) fn is_same(a: Name, b: Name) -> bool
    ensures { result ≡ spec.is_same a b }
{
    a.id.0 == b.id.0
}

/// Whether a name is `Executable`.
pub(crate) fn is_executable(names: &[Bytes], name: Name) -> bool
    ensures { result ≡ is_spelled "Executable" names.now name }
{
    match names.get(name.id.0 as usize) {
        Some(spelling) => spelling.as_slice() == b"Executable".as_slice(),
        None => false,
    }
}
