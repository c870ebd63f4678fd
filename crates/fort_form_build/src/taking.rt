//! Forms are taken off a stack.
ghost use Rattle.std.specs.Prelude.{◌≡◌, ◌∷◌, ◌++◌, length, IfOk};
ghost use Rattle.std.specs.List.{flat_map};
ghost use Rattle.fort_form_build.specs.Taking.{branch_forms};

use fort_base::{Boxed, List, Memory};
use fort_base_stack::Stack;
use fort_form::{Branch, Form};
use std::alloc::Global;

/// Takes the top off; want of memory where there is none, which the walk never asks for.
pub fn take(forms: &mut Stack<Form>) -> Result<Form, Memory>
    ensures { IfOk result (λ form. forms.old ≡ form ∷ forms.new) }
{
    match forms.pop() {
        Some(form) => Ok(form),
        None => Err(Memory),
    }
}

/// Takes the top off, into a box.
pub fn take_boxed(alloc: Global, forms: &mut Stack<Form>) -> Result<Boxed<Form>, Memory>
    ensures { IfOk result (λ form. forms.old ≡ form ∷ forms.new) }
{
    let form = take(forms)?;
    Boxed::new(alloc, form)
}

/// Takes some forms off, the top first.
pub fn take_forms(
    alloc: Global,
    forms: &mut Stack<Form>,
    count: usize,
) -> Result<List<Form>, Memory>
    ensures taken { IfOk result (λ taken. forms.old ≡ taken ++ forms.new) }
    ensures count { IfOk result (λ taken. length taken ≡ count) }
{
    let mut taken = List::new(alloc);
    for at in 0..count {
        taken.push(take(forms)?)?;
    }
    Ok(taken)
}

/// Takes a branch off: what it tests, then what it gives.
pub fn take_branch(forms: &mut Stack<Form>) -> Result<Branch, Memory>
    ensures { IfOk result (λ branch. forms.old ≡ branch_forms branch ++ forms.new) }
{
    let test = take(forms)?;
    let value = take(forms)?;
    Ok(Branch { test, value })
}

/// Takes some branches off.
pub fn take_branches(
    alloc: Global,
    forms: &mut Stack<Form>,
    count: usize,
) -> Result<List<Branch>, Memory>
    ensures taken { IfOk result (λ taken. forms.old ≡ flat_map branch_forms taken ++ forms.new) }
    ensures count { IfOk result (λ taken. length taken ≡ count) }
{
    let mut taken = List::new(alloc);
    for at in 0..count {
        taken.push(take_branch(forms)?)?;
    }
    Ok(taken)
}
