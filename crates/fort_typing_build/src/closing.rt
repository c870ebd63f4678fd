//! What a form is, once its parts are there.
ghost use Rattle.std.specs.Prelude.{◌≡◌, IfOk};
ghost use Rattle.fort_typing_known.specs.Read.{facts};
ghost use Rattle.fort_typing_meaning.specs.Closing.{close_at};
ghost use Rattle.fort_typing_meaning.specs.Judging.{level};

use crate::branches::{case_form, done, for_loop, if_form, try_form, typecase_form};
use crate::leaves::{field, name, number, receiver, text, truth};
use crate::parts::{
    atomic, block, chain, fill, function, juxtaposition, method, operator, power, same, subscript,
    throw, tight_run, tryatomic, tuple, while_loop,
};
use crate::writes::{assign, reduce};
use fort_base::Memory;
use fort_form::Form;
use fort_scope::Scope;
use fort_typing_known::{Fault, Known};
use fort_typing_meaning::{Frame, Outcome};
use std::alloc::Global;

/// What a form is, once its parts have been asked.
///
/// `frame` has what its parts have become, `scope` the names that it stands among, and `found` the
/// first broken rule so far. It answers `Memory` where memory is wanting. The chapter "Typing".
pub fn close(
    alloc: Global,
    known: &Known,
    scope: &Scope,
    form: &Form,
    frame: Frame,
    found: Option<Fault>,
) -> Result<Outcome, Memory>
    ensures { IfOk result (λ o. o
        ≡ close_at (facts known.now) (level (facts known.now) form.now) frame scope.now found) }
{
    let mut frame = frame;
    closed(alloc, known, scope, form, &mut frame, found)
}

/// What a form is; what is kept of its parts is taken off the frame.
#[tactic(auto, using(crate::proofs::Levels::levels))]
fn closed(
    alloc: Global,
    known: &Known,
    scope: &Scope,
    form: &Form,
    frame: &mut Frame,
    found: Option<Fault>,
) -> Result<Outcome, Memory>
    ensures { IfOk result (λ o. o
        ≡ close_at (facts known.now) (level (facts known.now) form.now) frame.old scope.now
        found) }
{
    match form {
        Form::Number(_, digits) => Ok(number(*digits, found)),
        Form::Text(_, written) => Ok(text(*written, found)),
        Form::Truth(_, written) => Ok(truth(*written, found)),
        Form::Receiver(place) => Ok(receiver(known, *place, found)),
        Form::Name(place, id) => name(alloc, known, scope, *place, *id, found),
        Form::Parens(..) => Ok(same(frame, found)),
        Form::Tuple(..) => tuple(alloc, frame, found),
        Form::Operator(place, op, _) => operator(alloc, known, *place, *op, frame, found),
        Form::Chain(..) => chain(alloc, known, frame, found),
        Form::Beside(..) => juxtaposition(alloc, known, frame, found),
        Form::Run(..) => tight_run(alloc, known, frame, found),
        Form::Subscript(..) => Ok(subscript(frame, found)),
        Form::Power(..) => Ok(power(frame, found)),
        Form::Field(_, at, id) => Ok(field(*at, *id, found)),
        Form::Method(_, at, id, _) => Ok(method(alloc, *at, *id, frame, found)),
        Form::Fill(_, ty, ..) => fill(alloc, ty, frame, found),
        Form::Block(..) => block(alloc, frame, found),
        Form::Do(_, blocks) => Ok(done(alloc, blocks.as_slice(), frame, found)),
        Form::If(place, _, other) => if_form(alloc, known, *place, other, frame, found),
        Form::While(..) => while_loop(alloc, frame, found),
        Form::For(_, generators, _) => for_loop(alloc, generators.as_slice(), frame, found),
        Form::Case(place, ..) => case_form(alloc, known, *place, frame, found),
        Form::Typecase(place, _, id, _, clauses, _) => {
            let clauses = clauses.as_slice();
            typecase_form(alloc, known, *place, *id, clauses, frame, found)
        }
        Form::Try(place, _, id, clauses, _) => {
            let clauses = clauses.as_slice();
            try_form(alloc, known, *place, id, clauses, frame, found)
        }
        Form::Atomic(..) => atomic(alloc, frame, found),
        Form::Tryatomic(..) => tryatomic(alloc, frame, found),
        Form::Throw(..) => throw(alloc, frame, found),
        Form::Fn(_, takes, _) => function(alloc, takes.as_slice(), frame, found),
        Form::Reduce(_, reduction, generator, _) => {
            let generator = generator.get();
            reduce(alloc, known, *reduction, generator, frame, found)
        }
        Form::Assign(_, target, sign, _) => {
            assign(alloc, known, target.get(), *sign, frame, found)
        }
    }
}
