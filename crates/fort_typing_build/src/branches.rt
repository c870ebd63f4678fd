//! Forms of which a part is chosen, and blocks that go together.
ghost use Rattle.std.specs.Prelude.{◌≡◌, ◌++◌, ◌∷◌, [], IfOk, None, Some, map, option_map};
ghost use Rattle.fort_form_typed.specs.declared.typed_form.TypedForm.TheVariants as a_typed;
ghost use Rattle.fort_typing_known.specs.Known.{Facts};
ghost use Rattle.fort_typing_known.specs.Read.{facts};
ghost use Rattle.fort_typing_rules.specs.Types.{type_of as type_in, types_of as types_in, unit as unit_type};
ghost use Rattle.fort_typing_rules.specs.Typing.{bound_name as name_bound, else_types};
ghost use Rattle.fort_typing_meaning.specs.Tests.{value as value_outcome, widest};
ghost use Rattle.fort_typing_meaning.specs.Closing.{by_one, by_widest, case_answer, clause_type, done as done_answer, giving_name, if_answer, try_answer, typecase_answer, unbroken};
ghost use Rattle.fort_typing_meaning.specs.Judging.{judged, judged_clause, judged_generator};

use crate::copies::{clause_types, names, widest_of};
use crate::frames::{take_calls, take_first, take_head, take_last, take_second};
use crate::parts::same;
use fort_base::rules::MISMATCH;
use fort_base::{Boxed, List, Memory, NameId, Place, Ty};
use fort_form::{Form, Generator, TypeBranch};
use fort_form_typed::TypedForm;
use fort_typing_known::{Fault, Known};
use fort_typing_meaning::{Frame, Outcome};
use fort_typing_parts::{refused, type_of, types_of, unit, untyped, value};
use std::alloc::Global;

/// The types of what clauses give, and of what stands behind `else`.
fn branch_types(
    alloc: Global,
    values: &[TypedForm],
    other: &Option<TypedForm>,
) -> Result<List<Ty>, Memory>
    ensures { IfOk result (λ types. types ≡ types_in values.now ++ else_types other.now) }
{
    let mut types = types_of(alloc, values)?;
    if let Some(typed) = other {
        types.push(type_of(typed).copy(alloc)?)?;
    }
    Ok(types)
}

/// The type of a block, and those of what clauses give.
fn block_types(alloc: Global, block: &TypedForm, values: &[TypedForm]) -> Result<List<Ty>, Memory>
    ensures { IfOk result (λ types. types ≡ type_in block.now ∷ types_in values.now) }
{
    let mut types = List::new(alloc);
    types.push(type_of(block).copy(alloc)?)?;
    types.append(types_of(alloc, values)?)?;
    Ok(types)
}

/// The blocks of a `do`: one is that block, several run in parallel.
pub fn done(alloc: Global, blocks: &[Form], frame: &mut Frame, found: Option<Fault>) -> Outcome
    ensures { (k : Facts)
        → result ≡ unbroken frame.old found
        (done_answer (map (judged k) blocks.now) frame.old found) }
{
    if frame.broken {
        return untyped(found);
    }
    match blocks {
        [_, _, ..] => value(
            TypedForm::Also(unit(alloc), take_first(alloc, frame)),
            found,
        ),
        [_] => same(frame, found),
        _ => untyped(found),
    }
}

/// An `if` with an `else`, which has the widest type of its blocks; 603 at it where there is none.
fn if_else(
    alloc: Global,
    known: &Known,
    place: Place,
    frame: &mut Frame,
    found: Option<Fault>,
) -> Result<Outcome, Memory>
    ensures { IfOk result (λ o. o
        ≡ by_one frame.old.last found
        (λ u. by_widest place
        (widest (facts known.now) (types_in frame.old.second ++ type_in u ∷ [])) found
        (λ ty. a_typed.If ty frame.old.first frame.old.second (Some u)))) }
{
    let types = branch_types(alloc, frame.second.as_slice(), &frame.last)?;
    let Some(last) = take_last(alloc, frame)? else {
        return Ok(untyped(found));
    };
    let Some(ty) = widest_of(alloc, known, &types)? else {
        return Ok(refused(MISMATCH, place, found));
    };
    let first = take_first(alloc, frame);
    let second = take_second(alloc, frame);
    Ok(value(TypedForm::If(ty, first, second, Some(last)), found))
}

/// An `if`; without an `else` it is `()`.
#[tactic(auto, unfolding(fort_typing_meaning::specs::Closing::if_answer))]
pub fn if_form(
    alloc: Global,
    known: &Known,
    place: Place,
    other: &Option<Boxed<Form>>,
    frame: &mut Frame,
    found: Option<Fault>,
) -> Result<Outcome, Memory>
    ensures { IfOk result (λ o. o
        ≡ unbroken frame.old found
        (if_answer (facts known.now) place (option_map (judged (facts known.now)) other.now)
        frame.old found)) }
{
    if frame.broken {
        return Ok(untyped(found));
    }
    if other.is_some() {
        return if_else(alloc, known, place, frame, found);
    }
    let first = take_first(alloc, frame);
    let second = take_second(alloc, frame);
    Ok(value(TypedForm::If(unit(alloc), first, second, None), found))
}

/// A loop over generators.
#[tactic(auto, using(crate::proofs::Kept::names_are))]
pub fn for_loop(
    alloc: Global,
    generators: &[Generator],
    frame: &mut Frame,
    found: Option<Fault>,
) -> Result<Outcome, Memory>
    ensures { IfOk result (λ o. (k : Facts)
        → o ≡ unbroken frame.old found
        (by_one frame.old.last found
        (λ u. value_outcome
        (a_typed.For unit_type (map giving_name (map (judged_generator k) generators.now))
        frame.old.first u) found))) }
{
    if frame.broken {
        return Ok(untyped(found));
    }
    let Some(body) = take_last(alloc, frame)? else {
        return Ok(untyped(found));
    };
    let names = names(alloc, generators)?;
    let first = take_first(alloc, frame);
    Ok(value(TypedForm::For(unit(alloc), names, first, body), found))
}

/// A `case`, which has the widest type of what its clauses give; 603 at it where there is none.
#[tactic(auto, unfolding(fort_typing_meaning::specs::Closing::case_answer))]
pub fn case_form(
    alloc: Global,
    known: &Known,
    place: Place,
    frame: &mut Frame,
    found: Option<Fault>,
) -> Result<Outcome, Memory>
    ensures { IfOk result (λ o. o
        ≡ unbroken frame.old found (case_answer (facts known.now) place frame.old found)) }
{
    if frame.broken {
        return Ok(untyped(found));
    }
    let Some(subject) = take_head(alloc, frame)? else {
        return Ok(untyped(found));
    };
    let types = branch_types(alloc, frame.second.as_slice(), &frame.last)?;
    let Some(ty) = widest_of(alloc, known, &types)? else {
        return Ok(refused(MISMATCH, place, found));
    };
    let last = take_last(alloc, frame)?;
    let calls = take_calls(alloc, frame);
    let first = take_first(alloc, frame);
    let second = take_second(alloc, frame);
    Ok(value(
        TypedForm::Case(ty, subject, calls, first, second, last),
        found,
    ))
}

/// A `typecase`, likewise.
#[tactic(auto, using(crate::proofs::Kept::types_are), unfolding(fort_typing_meaning::specs::Closing::typecase_answer))]
pub fn typecase_form(
    alloc: Global,
    known: &Known,
    place: Place,
    name: NameId,
    clauses: &[TypeBranch],
    frame: &mut Frame,
    found: Option<Fault>,
) -> Result<Outcome, Memory>
    ensures { IfOk result (λ o. o
        ≡ unbroken frame.old found
        (typecase_answer (facts known.now) place name
        (map clause_type (map (judged_clause (facts known.now)) clauses.now)) frame.old
        found)) }
{
    if frame.broken {
        return Ok(untyped(found));
    }
    let Some(subject) = take_head(alloc, frame)? else {
        return Ok(untyped(found));
    };
    let types = branch_types(alloc, frame.second.as_slice(), &frame.last)?;
    let Some(ty) = widest_of(alloc, known, &types)? else {
        return Ok(refused(MISMATCH, place, found));
    };
    let types = clause_types(alloc, clauses)?;
    let last = take_last(alloc, frame)?;
    let second = take_second(alloc, frame);
    Ok(value(
        TypedForm::Typecase(ty, name, subject, types, second, last),
        found,
    ))
}

/// The name that a `catch` binds, where there is one.
fn bound_name(name: &Option<(Place, NameId)>) -> Option<NameId>
    ensures { result ≡ name_bound name.now }
{
    match name {
        Some((_, name)) => Some(*name),
        None => None,
    }
}

/// A `try`, which has the widest type of its block and of what its clauses give; 603 at it where
/// there is none.
#[tactic(auto, using(crate::proofs::Kept::types_are), unfolding(fort_typing_meaning::specs::Closing::try_answer))]
pub fn try_form(
    alloc: Global,
    known: &Known,
    place: Place,
    name: &Option<(Place, NameId)>,
    clauses: &[TypeBranch],
    frame: &mut Frame,
    found: Option<Fault>,
) -> Result<Outcome, Memory>
    ensures { IfOk result (λ o. o
        ≡ unbroken frame.old found
        (try_answer (facts known.now) place name.now
        (map clause_type (map (judged_clause (facts known.now)) clauses.now)) frame.old
        found)) }
{
    if frame.broken {
        return Ok(untyped(found));
    }
    let Some(block) = take_head(alloc, frame)? else {
        return Ok(untyped(found));
    };
    let types = block_types(alloc, block.get(), frame.second.as_slice())?;
    let Some(ty) = widest_of(alloc, known, &types)? else {
        return Ok(refused(MISMATCH, place, found));
    };
    let types = clause_types(alloc, clauses)?;
    let last = take_last(alloc, frame)?;
    let second = take_second(alloc, frame);
    Ok(value(
        TypedForm::Try(ty, block, bound_name(name), types, second, last),
        found,
    ))
}
