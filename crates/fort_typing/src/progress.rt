//! How far the typing of a component has come.
ghost use Rattle.std.specs.Prelude.{◌≡◌, IfOk, OnOk, None};
ghost use Rattle.fort_typing_known.specs.Read.{facts};
ghost use Rattle.fort_typing_meaning.specs.Whole.{begun, judged_bodies, judged_body, judged_initial, judged_initials, with_body, with_initial};
ghost use Rattle.fort_typing.specs.Typing.{whole_of};

use crate::declarations::{judged_body, judged_initial};
use fort_base::{List, Memory, NameId, Ty, TypeId};
use fort_form::{BodyForm, InitialForm, Parameter};
use fort_form_typed::{TypedBody, TypedForm};
use fort_typing_known::{Fault, Known};
use fort_typing_meaning::Valued;
use std::alloc::Global;

/// How far the typing of a component has come.
#[derive(Drop)]
pub struct Progress {
    pub initials: List<(Option<TypeId>, NameId, Ty, TypedForm)>,
    pub bodies: List<TypedBody>,
    pub found: Option<Fault>,
}

/// Parameters, copied.
fn copied(alloc: Global, parameters: &[Parameter]) -> Result<List<Parameter>, Memory>
    ensures { IfOk result (λ list. list ≡ parameters.now) }
{
    let mut list = List::new(alloc);
    for parameter in parameters {
        list.push(Parameter {
            place: parameter.place,
            name: parameter.name,
            ty: parameter.ty.copy(alloc)?,
        })?;
    }
    Ok(list)
}

impl Progress {
    /// Nothing has been asked.
    pub fn begin(alloc: Global) -> Progress
        ensures { whole_of result ≡ begun }
    {
        Progress {
            initials: List::new(alloc),
            bodies: List::new(alloc),
            found: None,
        }
    }

    /// An initial more.
    fn add_initial(
        &mut self,
        alloc: Global,
        known: &Known,
        form: &InitialForm,
    ) -> Result<(), Memory>
        ensures { OnOk result (whole_of self.new
            ≡ with_initial form.now (judged_initial (facts known.now) form.now self.old.found)
            (whole_of self.old)) }
    {
        let ty = form.ty.copy(alloc)?;
        let Valued { node, found } = judged_initial(alloc, known, form, self.found)?;
        self.found = found;
        match node {
            None => Ok(()),
            Some(typed) => self.initials.push((form.owner, form.name, ty, typed)),
        }
    }

    /// A body more.
    fn add_body(&mut self, alloc: Global, known: &Known, form: &BodyForm) -> Result<(), Memory>
        ensures { OnOk result (whole_of self.new
            ≡ with_body form.now (judged_body (facts known.now) form.now self.old.found)
            (whole_of self.old)) }
    {
        let parameters = copied(alloc, form.parameters.as_slice())?;
        let Valued { node, found } = judged_body(alloc, known, form, self.found)?;
        self.found = found;
        match node {
            None => Ok(()),
            Some(body) => self.bodies.push(TypedBody {
                place: form.place,
                parameters,
                receiver: form.receiver,
                body,
            }),
        }
    }

    /// All initials.
    #[tactic(auto, unfolding(fort_typing_meaning::specs::Whole::judged_initials))]
    pub fn add_initials(
        &mut self,
        alloc: Global,
        known: &Known,
        forms: &[InitialForm],
    ) -> Result<(), Memory>
        ensures { OnOk result (whole_of self.new
            ≡ judged_initials (facts known.now) forms.now (whole_of self.old)) }
    {
        for form in forms {
            self.add_initial(alloc, known, form)?;
        }
        Ok(())
    }

    /// All bodies.
    #[tactic(auto, unfolding(fort_typing_meaning::specs::Whole::judged_bodies))]
    pub fn add_bodies(
        &mut self,
        alloc: Global,
        known: &Known,
        forms: &[BodyForm],
    ) -> Result<(), Memory>
        ensures { OnOk result (whole_of self.new
            ≡ judged_bodies (facts known.now) forms.now (whole_of self.old)) }
    {
        for form in forms {
            self.add_body(alloc, known, form)?;
        }
        Ok(())
    }
}
