//! Where two texts part.
ghost use Rattle.std.specs.Prelude.{◌≡◌, ◌≤◌, ◌⊎◌, length, MatchOption};
ghost use Rattle.fort_audit.specs.Audits.{PartsAt};

/// The number, from 0, of the first byte at which two texts differ or one of them ends; `None`
/// where they are the same.
pub(crate) fn parting(one: &[u8], two: &[u8]) -> Option<usize>
    ensures { MatchOption result (one.now ≡ two.now) (PartsAt one.now two.now) }
{
    let shorter = shorter(one, two);
    let mut at = 0;
    while at < shorter {
        if one[at] != two[at] {
            return Some(at);
        }
        at += 1;
    }
    if one.len() == two.len() {
        None
    } else {
        Some(shorter)
    }
}

// The length of the shorter of two texts.
fn shorter(one: &[u8], two: &[u8]) -> usize
    ensures within { (result ≤ length one.now) × (result ≤ length two.now) }
    ensures is { (result ≡ length one.now) ⊎ (result ≡ length two.now) }
{
    if one.len() <= two.len() {
        one.len()
    } else {
        two.len()
    }
}
