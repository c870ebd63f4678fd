//! Types in prefix form.
ghost use Rattle.std.specs.Prelude.{◌≡◌, ◌++◌, ◌↔◌, IsTrue, OnOk, length, map, option_map};
ghost use Rattle.std.specs.List.{flat_map};
ghost use Rattle.fort_link_rules.specs.Symbols as spec;

use fort_base::{List, Memory, NameId};
use fort_tree::{NextParameter, NextType, Parameters, SimpleType, TypeList, TypeTree};

/// A symbol of a type in prefix form.
#[derive(Clone, Copy)]
pub(crate) enum Symbol {
    /// A name.
    Named(NameId),
    /// An array of the type that follows.
    Array,
    /// An arrow between the two types that follow.
    Arrow,
    /// A tuple of so many types, which follow; of none it is the type of `()`.
    Tuple(usize),
}

impl Symbol {
    /// Whether this symbol is another one.
    fn is(self, other: Symbol) -> bool
        ensures { IsTrue result ↔ (self ≡ other) }
    {
        match (self, other) {
            (Symbol::Named(a), Symbol::Named(b)) => a.0 == b.0,
            (Symbol::Array, Symbol::Array) => true,
            (Symbol::Arrow, Symbol::Arrow) => true,
            (Symbol::Tuple(a), Symbol::Tuple(b)) => a == b,
            _ => false,
        }
    }
}

/// Whether two types in prefix form are the same.
pub(crate) fn same_symbols(left: &List<Symbol>, right: &List<Symbol>) -> bool
    ensures { IsTrue result ↔ (left.now ≡ right.now) }
{
    let a = left.as_slice();
    let b = right.as_slice();
    if a.len() != b.len() {
        return false;
    }
    for i in 0..a.len() {
        if !a[i].is(b[i]) {
            return false;
        }
    }
    true
}

/// Adds a type.
#[cycle(types)]
pub(crate) fn add_type(ty: &TypeTree, out: &mut List<Symbol>) -> Result<(), Memory>
    ensures { OnOk result (out.new ≡ out.old ++ spec.type_symbols ty.now) }
{
    match ty {
        TypeTree::Simple(simple) => add_simple_type(simple, out)?,
        TypeTree::Arrow(domain, _, result) => {
            out.push(Symbol::Arrow)?;
            add_simple_type(domain, out)?;
            add_simple_type(result, out)?;
        }
    }
    Ok(())
}

#[cycle(types)]
fn add_simple_type(simple: &SimpleType, out: &mut List<Symbol>) -> Result<(), Memory>
    ensures { OnOk result (out.new ≡ out.old ++ spec.simple_type_symbols simple.now) }
{
    match simple {
        SimpleType::Named(name) => out.push(Symbol::Named(name.id))?,
        SimpleType::Array { element, .. } => {
            out.push(Symbol::Array)?;
            add_type(element.get(), out)?;
        }
        SimpleType::Parts { parts, .. } => add_parts(parts, out)?,
    }
    Ok(())
}

#[cycle(types)]
fn add_parts(parts: &Option<TypeList>, out: &mut List<Symbol>) -> Result<(), Memory>
    ensures { OnOk result (out.new
        ≡ out.old ++ spec.parts_symbols (option_map spec.type_list_symbols parts.now)) }
{
    match parts {
        Some(list) => {
            let others = list.others.as_slice();
            add_tuple(others, out)?;
            add_type(list.first.get(), out)?;
            add_next_types(others, out)?;
        }
        None => out.push(Symbol::Tuple(0))?,
    }
    Ok(())
}

#[cycle(types)]
fn add_next_types(types: &[NextType], out: &mut List<Symbol>) -> Result<(), Memory>
    ensures { OnOk result (out.new
        ≡ out.old ++ spec.all_symbols (map spec.next_type_symbols types.now)) }
{
    for next in types {
        add_type(&next.ty, out)?;
    }
    Ok(())
}

/// Adds what stands before the parts of a tuple that has these beside its first one.
fn add_tuple(others: &[NextType], out: &mut List<Symbol>) -> Result<(), Memory>
    ensures { OnOk result (out.new ≡ out.old ++ spec.tuple_symbols (length others.now)) }
{
    if !others.is_empty() {
        out.push(Symbol::Tuple(1 + others.len()))?;
    }
    Ok(())
}

/// Adds the types of parameters, as a tuple of them.
pub(crate) fn add_parameters(
    parameters: &Option<Parameters>,
    out: &mut List<Symbol>,
) -> Result<(), Memory>
    ensures { OnOk result (out.new ≡ out.old ++ spec.parameters_symbols parameters.now) }
{
    match parameters {
        Some(list) => {
            let others = list.others.as_slice();
            out.push(Symbol::Tuple(1 + others.len()))?;
            add_type(&list.first.ty, out)?;
            add_next_parameters(others, out)?;
        }
        None => out.push(Symbol::Tuple(0))?,
    }
    Ok(())
}

fn add_next_parameters(parameters: &[NextParameter], out: &mut List<Symbol>) -> Result<(), Memory>
    ensures { OnOk result (out.new
        ≡ out.old ++ flat_map (λ next. spec.type_symbols next.parameter.ty) parameters.now) }
{
    for next in parameters {
        add_type(&next.parameter.ty, out)?;
    }
    Ok(())
}
