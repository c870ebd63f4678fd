//! How an attempt ends.
ghost use Rattle.std.specs.Prelude.{IfOk};
ghost use Rattle.fort_hall_forms.specs.Forms.{EndsAt};

use fort_base::{Memory, Shared};
use fort_core::Term;
use fort_frames_moves::{Stand, standing_of};
use fort_store_effects::Closing;

/// How an attempt ended.
#[derive(Drop)]
pub struct Became {
    pub closing: Closing,
    /// What its form becomes.
    pub term: Shared<Term>,
}

/// How an attempt ended whose body has come to a term: it is completed at a value, and has failed
/// at a throw of one. `None` while the term is open.
///
/// # Errors
///
/// `Memory` where a term has as many owners as can be counted.
pub fn ended_at(end: &Shared<Term>) -> Result<Option<Became>, Memory>
    ensures { IfOk result (EndsAt end.now) }
{
    match standing_of(end.get()) {
        Stand::Open => Ok(None),
        Stand::Value => {
            let term = end.share()?;
            let closing = Closing::Completed;
            Ok(Some(Became { closing, term }))
        }
        Stand::Throw => {
            let term = end.share()?;
            let closing = Closing::Failed;
            Ok(Some(Became { closing, term }))
        }
    }
}
