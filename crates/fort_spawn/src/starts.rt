//! Whether a component starts, and its functions `run`.
ghost use Rattle.std.specs.Prelude.{◌≡◌, option_map};
ghost use Rattle.fort_tree.specs.Tokens.{is_spelled};
ghost use Rattle.fort_spawn.specs.Starts as spec;

use fort_base::Bytes;
use fort_tree::{
    Component, Declaration, Declared, Function, FunctionName, Name, SimpleType, TypeList, TypeTree,
};

/// Whether a type is `()`, however it is written.
#[cycle(types)]
fn is_unit(ty: &TypeTree) -> bool
    ensures { result ≡ spec.is_unit ty.now }
{
    match ty {
        TypeTree::Simple(simple) => is_unit_simple(simple),
        TypeTree::Arrow(..) => false,
    }
}

/// The same of a simple type.
#[cycle(types)]
fn is_unit_simple(simple: &SimpleType) -> bool
    ensures { result ≡ spec.is_unit_simple simple.now }
{
    match simple {
        SimpleType::Named(_) => false,
        SimpleType::Array { .. } => false,
        SimpleType::Parts { parts, .. } => are_unit(parts),
    }
}

/// The same of what stands in parentheses.
#[cycle(types)]
fn are_unit(parts: &Option<TypeList>) -> bool
    ensures { result ≡ spec.parts_are_unit (option_map spec.is_unit_list parts.now) }
{
    match parts {
        Some(list) if list.others.is_empty() => is_unit(list.first.get()),
        Some(_) => false,
        None => true,
    }
}

/// Whether a name is `run`.
fn is_called_run(names: &[Bytes], name: Name) -> bool
    ensures { result ≡ is_spelled "run" names.now name }
{
    match names.get(name.id.0 as usize) {
        Some(spelling) => spelling.as_slice() == b"run".as_slice(),
        None => false,
    }
}

/// Whether a function is a `run` without parameters.
pub(crate) fn is_run(names: &[Bytes], function: &Function) -> bool
    ensures { result ≡ spec.is_run names.now function.now }
{
    match function.name {
        FunctionName::Name(name) => { function.parameters.is_none() && is_called_run(names, name) }
        _ => false,
    }
}

/// Whether a declaration is such a function, with the result `()`.
fn is_start(names: &[Bytes], declared: &Declared) -> bool
    ensures { result ≡ spec.is_start names.now declared.now }
{
    match &declared.declaration {
        Declaration::Function(function) => is_run(names, function) && is_unit(&function.result),
        _ => false,
    }
}

/// Whether one of the component's functions `run` without parameters has the result `()`.
pub(crate) fn starts(component: &Component) -> bool
    ensures { result ≡ spec.starts component.now }
{
    let names = component.names.as_slice();
    for declared in component.declarations.as_slice() {
        if is_start(names, declared) {
            return true;
        }
    }
    false
}
