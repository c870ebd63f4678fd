//! The two halves of a count.
ghost use Rattle.std.specs.Prelude.{◌≡◌, ◌+◌};
ghost use Rattle.fort_machine.specs.Generators.{first_half, rest_half};

/// The sizes of the two halves of a generator's numbers, the first rounded up: the first half goes
/// over the first so many, the second over the rest. The chapter "Steps and costs".
pub(crate) fn halves(count: u64) -> (u64, u64)
    ensures first { result.0 ≡ first_half count }
    ensures rest { result.1 ≡ rest_half count }
    ensures all { result.0 + result.1 ≡ count }
{
    let rest = count / 2;
    (count - rest, rest)
}
