//! Numbers that aren't below 0.
ghost use Rattle.std.specs.Prelude.{◌≡◌};
ghost use Rattle.fort_step_forms.specs.Rows.{natural_of};

// A ZZ32 that isn't below 0.
#[tactic(auto, using(crate::proofs::Naturals::signs))]
pub(crate) fn natural(number: i32) -> Option<u32>
    ensures { result ≡ natural_of number }
{
    if number < 0 {
        None
    } else {
        Some(number.unsigned_abs())
    }
}
