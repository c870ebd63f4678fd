//! What declarations are called, of which kind they are, and how their types are written.
ghost use Rattle.std.specs.Prelude.{◌≡◌, ◌↔◌, IsTrue, IfOk, option_to_list};
ghost use Rattle.fort_link_rules.specs.Signatures as spec;

use crate::symbols::{Symbol, add_parameters, add_type, same_symbols};
use fort_base::{List, Memory, NameId, Place};
use fort_link_units::ApiDeclaration;
use fort_tree::{Declaration, Function, FunctionName, Name, Parameters, TypeTree};
use std::alloc::Global;

/// The kind of a declaration.
#[derive(Clone, Copy)]
pub(crate) enum Kind {
    Variable,
    Function,
    Trait,
    Object,
}

/// The kind and the name of a declaration, and its types in prefix form: of a variable its type, of
/// a function those of its parameters and of its result, of a trait or object none.
#[derive(Drop)]
pub(crate) struct Signature {
    pub(crate) kind: Kind,
    pub(crate) name: NameId,
    pub(crate) symbols: List<Symbol>,
}

impl Kind {
    /// Whether this kind is another one.
    fn is(self, other: Kind) -> bool
        ensures { IsTrue result ↔ (self ≡ other) }
    {
        match (self, other) {
            (Kind::Variable, Kind::Variable) => true,
            (Kind::Function, Kind::Function) => true,
            (Kind::Trait, Kind::Trait) => true,
            (Kind::Object, Kind::Object) => true,
            _ => false,
        }
    }
}

impl Signature {
    /// Whether this signature is another one.
    pub(crate) fn is(&self, other: &Signature) -> bool
        ensures { IsTrue result ↔ (self.now ≡ other.now) }
    {
        self.kind.is(other.kind)
            && self.name.0 == other.name.0
            && same_symbols(&self.symbols, &other.symbols)
    }
}

/// What an API's declaration promises.
pub(crate) fn promised(alloc: Global, declaration: &ApiDeclaration) -> Result<Signature, Memory>
    ensures { IfOk result (λ signature. signature ≡ spec.promised declaration.now) }
{
    match declaration {
        ApiDeclaration::Variable { name, ty, .. } => variable(alloc, *name, ty),
        ApiDeclaration::Function(head) => {
            function(alloc, head.name, &head.parameters, &head.result)
        }
        ApiDeclaration::Trait { name, .. } => Ok(untyped(alloc, Kind::Trait, *name)),
        ApiDeclaration::Object { name, .. } => Ok(untyped(alloc, Kind::Object, *name)),
    }
}

/// The place of an API's declaration.
pub(crate) fn promised_at(declaration: &ApiDeclaration) -> Place
    ensures { result ≡ spec.promised_at declaration.now }
{
    match declaration {
        ApiDeclaration::Variable { name, .. } => name.spot.place,
        ApiDeclaration::Function(head) => head.name.spot.place,
        ApiDeclaration::Trait { trait_, .. } => trait_.place,
        ApiDeclaration::Object { object, .. } => object.place,
    }
}

/// What a top-level declaration of a component provides, or `None` where it is an operator.
pub(crate) fn provided(
    alloc: Global,
    declaration: &Declaration,
) -> Result<Option<Signature>, Memory>
    ensures { IfOk result (λ signature. option_to_list signature ≡ spec.provided_by declaration.now) }
{
    match declaration {
        Declaration::Variable(declared) => {
            let signature = variable(alloc, declared.name, &declared.ty)?;
            Ok(Some(signature))
        }
        Declaration::Function(declared) => provided_by_function(alloc, declared),
        Declaration::Trait(declared) => Ok(Some(untyped(alloc, Kind::Trait, declared.name))),
        Declaration::Object(declared) => Ok(Some(untyped(alloc, Kind::Object, declared.name))),
    }
}

/// What a function provides, or `None` where it is an operator.
fn provided_by_function(alloc: Global, declared: &Function) -> Result<Option<Signature>, Memory>
    ensures { IfOk result (λ signature. option_to_list signature
        ≡ spec.provided_by_function declared.now.name declared.now) }
{
    match declared.name {
        FunctionName::Name(name) => {
            let signature = function(alloc, name, &declared.parameters, &declared.result)?;
            Ok(Some(signature))
        }
        FunctionName::Operator(_, _) => Ok(None),
        FunctionName::Juxtaposition(_, _) => Ok(None),
    }
}

/// The signature of a variable.
fn variable(alloc: Global, name: Name, ty: &TypeTree) -> Result<Signature, Memory>
    ensures { IfOk result (λ signature. signature ≡ spec.variable_signature name ty.now) }
{
    let mut symbols = List::new(alloc);
    add_type(ty, &mut symbols)?;
    Ok(Signature {
        kind: Kind::Variable,
        name: name.id,
        symbols,
    })
}

/// The signature of a function.
fn function(
    alloc: Global,
    name: Name,
    parameters: &Option<Parameters>,
    given: &TypeTree,
) -> Result<Signature, Memory>
    ensures { IfOk result (λ signature. signature
        ≡ spec.function_signature name parameters.now given.now) }
{
    let mut symbols = List::new(alloc);
    add_parameters(parameters, &mut symbols)?;
    add_type(given, &mut symbols)?;
    Ok(Signature {
        kind: Kind::Function,
        name: name.id,
        symbols,
    })
}

/// The signature of a trait or object.
fn untyped(alloc: Global, kind: Kind, name: Name) -> Signature
    ensures { result ≡ spec.untyped_signature kind name }
{
    Signature {
        kind,
        name: name.id,
        symbols: List::new(alloc),
    }
}
