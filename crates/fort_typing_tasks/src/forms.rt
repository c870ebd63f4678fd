//! The parts of each form.
ghost use Rattle.std.specs.Prelude.{◌≡◌, OnOk, map, option_map, Some, List as Seq};
ghost use Rattle.fort_typing_known.specs.Known.{Facts};
ghost use Rattle.fort_typing_meaning.specs.Parts.{State, watch};
ghost use Rattle.fort_typing_meaning.specs.Judging.{assigned_part, done_parts, if_parts, inside as on_inside, judged, judged_branch, judged_clause, judged_generator, level, reduction_want};
ghost use Rattle.fort_typing_rules.specs.Typing.{update_operator};
ghost use Rattle.fort_typing_tasks.specs.Tasks.{on_otherwise, run};
ghost use Rattle.fort_typing_tasks.specs.Insides.{assign_inside, case_inside, fn_inside, for_inside, reduce_inside, try_inside, typecase_inside};

use crate::asking::{ask, ask_below, ask_each, ask_if, elements, sides};
use crate::binding::{items, source, sources};
use crate::branches::{arms, clauses};
use crate::task::{Asking, Branching, Casing, Scoping, Taking, Task};
use fort_base::{Boxed, List, Memory, NameId, Place};
use fort_base_stack::Stack;
use fort_form::{Branch, Form, Generator, Parameter, Reduction, TypeBranch, Update};
use fort_typing_meaning::{Slot, Want};

/// The blocks of a `do`.
fn blocks<'a>(forms: &'a [Form], tasks: &mut Stack<Task<'a>>) -> Result<(), Memory>
    ensures { OnOk result ((k : Facts) (s : State)
        → run k tasks.new s ≡ run k tasks.old (done_parts k (map (judged k) forms.now) s)) }
{
    match forms.split_first() {
        None => Ok(()),
        Some((form, rest)) => {
            if rest.is_empty() {
                return ask(Slot::Head, Want::Value, form, tasks);
            }
            ask_each(Slot::First, Want::Unit, forms, tasks)
        }
    }
}

/// The parts of an `if`.
fn if_inside<'a>(
    branches: &'a [Branch],
    other: &'a Option<Boxed<Form>>,
    tasks: &mut Stack<Task<'a>>,
) -> Result<(), Memory>
    ensures { OnOk result ((k : Facts) (s : State)
        → run k tasks.new s
        ≡ run k tasks.old
        (if_parts k (map (judged_branch k) branches.now) (option_map (judged k) other.now) s)) }
{
    match other {
        None => arms(Want::Unit, branches, tasks),
        Some(form) => {
            ask(Slot::Last, Want::Value, form.get(), tasks)?;
            arms(Want::Value, branches, tasks)
        }
    }
}

/// The parts of a `for`.
fn for_inside<'a>(
    generators: &'a [Generator],
    body: &'a Form,
    tasks: &mut Stack<Task<'a>>,
) -> Result<(), Memory>
    ensures { OnOk result ((k : Facts) (s : State)
        → run k tasks.new s
        ≡ run k tasks.old
        (for_inside k (map (judged_generator k) generators.now) (judged k body.now) s)) }
{
    tasks.push(Task::Ask(Asking::Kept(Slot::Last, Want::Unit), body))?;
    sources(generators, tasks)
}

/// What the body of a reduction is to be.
fn reduction_want<'a>(reduction: Reduction) -> Want<'a>
    ensures { result ≡ reduction_want reduction }
{
    match reduction {
        Reduction::Conjunction => Want::Truth,
        Reduction::Disjunction => Want::Truth,
        _ => Want::Number,
    }
}

/// The parts of a reduction.
#[tactic(auto, using(crate::proofs::Single::single_source))]
fn reduce_inside<'a>(
    reduction: Reduction,
    generator: &'a Generator,
    body: &'a Form,
    tasks: &mut Stack<Task<'a>>,
) -> Result<(), Memory>
    ensures { OnOk result ((k : Facts) (s : State)
        → run k tasks.new s
        ≡ run k tasks.old
        (reduce_inside k reduction (judged_generator k generator.now) (judged k body.now) s)) }
{
    tasks.push(Task::Ask(Asking::Kept(Slot::Last, reduction_want(reduction)), body))?;
    source(generator, tasks)
}

/// The parts of a `case`.
fn case_inside<'a>(
    subject: &'a Boxed<Form>,
    branches: &'a List<Branch>,
    other: &'a Option<Boxed<Form>>,
    tasks: &mut Stack<Task<'a>>,
) -> Result<(), Memory>
    ensures { OnOk result ((k : Facts) (s : State)
        → run k tasks.new s
        ≡ run k tasks.old
        (case_inside k (judged k subject.now) (map (judged_branch k) branches.now)
        (option_map (judged k) other.now) s)) }
{
    ask_if(Slot::Last, Want::Value, other, tasks)?;
    tasks.push(Task::Branches(Branching::Clauses, branches.as_slice()))?;
    tasks.push(Task::Take(Taking::Subject, subject.get()))?;
    tasks.push(Task::See(subject.get()))
}

/// What stands behind the `else` of a `typecase`, if anything does.
fn otherwise<'a>(
    name: (Place, NameId),
    other: &'a Option<Boxed<Form>>,
    tasks: &mut Stack<Task<'a>>,
) -> Result<(), Memory>
    ensures { OnOk result ((k : Facts) (s : State)
        → run k tasks.new s
        ≡ run k tasks.old (on_otherwise k (Some name) (option_map (judged k) other.now) s)) }
{
    match other {
        None => Ok(()),
        Some(form) => tasks.push(Task::Ask(Asking::Otherwise(name.0, name.1), form.get())),
    }
}

/// The parts of a `typecase`.
#[tactic(auto, using(crate::proofs::Known::both_known))]
fn typecase_inside<'a>(
    name: (Place, NameId),
    subject: &'a Boxed<Form>,
    branches: &'a List<TypeBranch>,
    other: &'a Option<Boxed<Form>>,
    tasks: &mut Stack<Task<'a>>,
) -> Result<(), Memory>
    ensures { OnOk result ((k : Facts) (s : State)
        → run k tasks.new s
        ≡ run k tasks.old
        (typecase_inside k name (judged k subject.now) (map (judged_clause k) branches.now)
        (option_map (judged k) other.now) s)) }
{
    otherwise(name, other, tasks)?;
    tasks.push(Task::Cases(Casing::KnownValues(Some(name)), branches.as_slice()))?;
    tasks.push(Task::Scope(Scoping::LoseIfBroken))?;
    ask(Slot::Head, Want::Value, subject.get(), tasks)?;
    tasks.push(Task::Scope(Scoping::Watch(name.0, name.1)))
}

/// A name, if there is one, has to be free.
#[tactic(auto, unfolding(fort_typing_meaning::specs::Parts::watch))]
fn watch<'a>(name: Option<(Place, NameId)>, tasks: &mut Stack<Task<'a>>) -> Result<(), Memory>
    ensures { OnOk result ((k : Facts) (s : State)
        → run k tasks.new s ≡ run k tasks.old (watch k name s)) }
{
    match name {
        None => Ok(()),
        Some((place, name)) => tasks.push(Task::Scope(Scoping::Watch(place, name))),
    }
}

/// The parts of a `try`.
fn try_inside<'a>(
    block: &'a Boxed<Form>,
    name: Option<(Place, NameId)>,
    branches: &'a List<TypeBranch>,
    last: &'a Option<Boxed<Form>>,
    tasks: &mut Stack<Task<'a>>,
) -> Result<(), Memory>
    ensures { OnOk result ((k : Facts) (s : State)
        → run k tasks.new s
        ≡ run k tasks.old
        (try_inside k (judged k block.now) name (map (judged_clause k) branches.now)
        (option_map (judged k) last.now) s)) }
{
    ask_if(Slot::Last, Want::Unit, last, tasks)?;
    tasks.push(Task::Cases(Casing::KnownValues(name), branches.as_slice()))?;
    tasks.push(Task::Cases(Casing::Exceptions, branches.as_slice()))?;
    watch(name, tasks)?;
    ask(Slot::Head, Want::Value, block.get(), tasks)
}

/// The parts of a function.
fn fn_inside<'a>(
    parameters: &'a [Parameter],
    body: &'a Form,
    tasks: &mut Stack<Task<'a>>,
) -> Result<(), Memory>
    ensures { OnOk result ((k : Facts) (s : State)
        → run k tasks.new s
        ≡ run k tasks.old (fn_inside k parameters.now (judged k body.now) s)) }
{
    tasks.push(Task::Ask(Asking::Kept(Slot::Head, Want::Value), body))?;
    tasks.push(Task::Scope(Scoping::Parameters(parameters)))
}

/// An assigned value, or the right side of `+=` or `-=`.
#[tactic(auto, unfolding(fort_typing_meaning::specs::Parts::ask))]
fn assigned<'a>(sign: Update, value: &'a Form, tasks: &mut Stack<Task<'a>>) -> Result<(), Memory>
    ensures { OnOk result ((k : Facts) (s : State)
        → run k tasks.new s
        ≡ run k tasks.old (assigned_part k (update_operator sign) (judged k value.now) s)) }
{
    match sign {
        Update::Becomes => {
            tasks.push(Task::Take(Taking::Assigned, value))?;
            tasks.push(Task::See(value))
        }
        Update::Adds => ask(Slot::Last, Want::Operand, value, tasks),
        Update::Subtracts => ask(Slot::Last, Want::Operand, value, tasks),
    }
}

/// The parts of an assignment.
#[tactic(auto, using(crate::proofs::Single::assigned_forgets))]
fn assign_inside<'a>(
    target: &'a Form,
    sign: Update,
    value: &'a Form,
    tasks: &mut Stack<Task<'a>>,
) -> Result<(), Memory>
    ensures { OnOk result ((k : Facts) (s : State)
        → run k tasks.new s
        ≡ run k tasks.old (assign_inside k (judged k target.now) sign (judged k value.now) s)) }
{
    assigned(sign, value, tasks)?;
    tasks.push(Task::Take(Taking::Target, target))?;
    tasks.push(Task::See(target))
}

/// The parts of a form are asked in their order.
#[tactic(auto, using(crate::proofs::Levels::levels))]
pub fn inside<'a>(form: &'a Form, tasks: &mut Stack<Task<'a>>) -> Result<(), Memory>
    ensures { OnOk result ((k : Facts) (s : State)
        → run k tasks.new s ≡ run k tasks.old (on_inside k (level k form.now) s)) }
{
    match form {
        Form::Number(_, _) => Ok(()),
        Form::Text(_, _) => Ok(()),
        Form::Truth(_, _) => Ok(()),
        Form::Receiver(_) => Ok(()),
        Form::Name(_, _) => Ok(()),
        Form::Field(_, _, _) => Ok(()),
        Form::Parens(_, part) => ask(Slot::Head, Want::Value, part.get(), tasks),
        Form::Tuple(_, parts) => ask_each(Slot::First, Want::Operand, parts.as_slice(), tasks),
        Form::Operator(_, _, parts) => {
            ask_each(Slot::First, Want::Operand, parts.as_slice(), tasks)
        }
        Form::Chain(_, ops, parts) => sides(None, ops.as_slice(), parts.as_slice(), tasks),
        Form::Beside(_, parts) => elements(parts.as_slice(), tasks),
        Form::Run(_, parts) => elements(parts.as_slice(), tasks),
        Form::Subscript(_, part) => ask(Slot::Head, Want::Small, part.get(), tasks),
        Form::Power(_, part) => ask(Slot::Head, Want::Operand, part.get(), tasks),
        Form::Method(_, _, _, parts) => {
            ask_each(Slot::First, Want::Operand, parts.as_slice(), tasks)
        }
        Form::Fill(_, ty, size, value) => {
            ask_below(ty, value.get(), tasks)?;
            ask(Slot::Head, Want::Small, size.get(), tasks)
        }
        Form::Block(_, list) => items(list.as_slice(), tasks),
        Form::Do(_, forms) => blocks(forms.as_slice(), tasks),
        Form::If(_, branches, other) => if_inside(branches.as_slice(), other, tasks),
        Form::While(_, test, body) => {
            ask(Slot::Last, Want::Unit, body.get(), tasks)?;
            ask(Slot::Head, Want::Truth, test.get(), tasks)
        }
        Form::For(_, generators, body) => for_inside(generators.as_slice(), body.get(), tasks),
        Form::Case(_, subject, branches, other) => { case_inside(subject, branches, other, tasks) }
        Form::Typecase(_, at, name, subject, branches, other) => {
            typecase_inside((*at, *name), subject, branches, other, tasks)
        }
        Form::Try(_, block, name, branches, last) => {
            try_inside(block, *name, branches, last, tasks)
        }
        Form::Atomic(_, part) => ask(Slot::Head, Want::Value, part.get(), tasks),
        Form::Tryatomic(_, part) => ask(Slot::Head, Want::Value, part.get(), tasks),
        Form::Throw(_, part) => ask(Slot::Head, Want::Exception, part.get(), tasks),
        Form::Fn(_, parameters, body) => fn_inside(parameters.as_slice(), body.get(), tasks),
        Form::Reduce(_, reduction, generator, body) => {
            reduce_inside(*reduction, generator.get(), body.get(), tasks)
        }
        Form::Assign(_, target, sign, value) => {
            assign_inside(target.get(), *sign, value.get(), tasks)
        }
    }
}
