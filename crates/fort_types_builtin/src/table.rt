//! The built-in declarations. The chapter "Members" of docs/LANGUAGE.md, its table of them.
ghost use Rattle.std.specs.Prelude.{◌≡◌, [], get_or, length, map, slice_get, IfOk};
ghost use Rattle.fort_types_builtin.specs.Declarations.{declaration_of, declarations, function_spellings, has, primitives_of, ty_of};

use crate::types::{BOOLEAN, RANGE, STRING, ZZ32, ZZ64};
use fort_base::{Bytes, List, Memory, Ty, TypeId};
use fort_core::Primitive;
use std::alloc::Global;

/// A type of a built-in declaration.
#[derive(Clone, Copy)]
pub enum Simple {
    /// `Any`
    Any,
    /// `()`
    Unit,
    /// A built-in declared type.
    Declared(TypeId),
}

/// A built-in declaration.
#[derive(Drop)]
pub struct BuiltInDeclaration {
    /// The name of the function, or the first spelling of the operator, in UTF-8.
    pub name: Bytes,
    pub parameters: List<Ty>,
    pub result: Ty,
    /// What it is to the machine.
    pub primitive: Primitive,
}

const ALL: Simple = Simple::Any;

const UNIT: Simple = Simple::Unit;

const SMALL: Simple = Simple::Declared(ZZ32);

const LARGE: Simple = Simple::Declared(ZZ64);

const TEXT: Simple = Simple::Declared(STRING);

const TRUTH: Simple = Simple::Declared(BOOLEAN);

const SPAN: Simple = Simple::Declared(RANGE);

/// How many declarations are built in.
pub const DECLARATION_COUNT: usize = OPERATOR_COUNT + FUNCTION_COUNT;

/// How many of these are named by operators, `juxtaposition` among them. They stand first.
pub const OPERATOR_COUNT: usize = 63;

/// How many are named by a name that stands at the top of every component. They stand last.
pub const FUNCTION_COUNT: usize = 6;

/// A row of the table of declarations: the name, the types of the parameters, the type of the
/// result, and what it is to the machine.
pub type DeclarationRow = (&'static [u8], &'static [Simple], Simple, Primitive);

/// The built-in declarations, in their order.
pub const DECLARATIONS: [DeclarationRow; DECLARATION_COUNT] = [
    (b"+", &[SMALL, SMALL], SMALL, Primitive::AddSmall),
    (b"+", &[LARGE, LARGE], LARGE, Primitive::AddLarge),
    (b"-", &[SMALL, SMALL], SMALL, Primitive::SubtractSmall),
    (b"-", &[LARGE, LARGE], LARGE, Primitive::SubtractLarge),
    (b"TIMES", &[SMALL, SMALL], SMALL, Primitive::TimesSmall),
    (b"TIMES", &[LARGE, LARGE], LARGE, Primitive::TimesLarge),
    (b"DOT", &[SMALL, SMALL], SMALL, Primitive::DotSmall),
    (b"DOT", &[LARGE, LARGE], LARGE, Primitive::DotLarge),
    (
        b"juxtaposition",
        &[SMALL, SMALL],
        SMALL,
        Primitive::JuxtaposeSmall,
    ),
    (
        b"juxtaposition",
        &[LARGE, LARGE],
        LARGE,
        Primitive::JuxtaposeLarge,
    ),
    (b"MAX", &[SMALL, SMALL], SMALL, Primitive::MaxSmall),
    (b"MAX", &[LARGE, LARGE], LARGE, Primitive::MaxLarge),
    (b"MIN", &[SMALL, SMALL], SMALL, Primitive::MinSmall),
    (b"MIN", &[LARGE, LARGE], LARGE, Primitive::MinLarge),
    (b"DIV", &[SMALL, SMALL], SMALL, Primitive::DivideSmall),
    (b"DIV", &[LARGE, LARGE], LARGE, Primitive::DivideLarge),
    (b"REM", &[SMALL, SMALL], SMALL, Primitive::RemainderSmall),
    (b"REM", &[LARGE, LARGE], LARGE, Primitive::RemainderLarge),
    (b"MOD", &[SMALL, SMALL], SMALL, Primitive::ModuloSmall),
    (b"MOD", &[LARGE, LARGE], LARGE, Primitive::ModuloLarge),
    (b"GCD", &[SMALL, SMALL], SMALL, Primitive::GcdSmall),
    (b"GCD", &[LARGE, LARGE], LARGE, Primitive::GcdLarge),
    (b"LCM", &[SMALL, SMALL], SMALL, Primitive::LcmSmall),
    (b"LCM", &[LARGE, LARGE], LARGE, Primitive::LcmLarge),
    (b"BITAND", &[SMALL, SMALL], SMALL, Primitive::BitAndSmall),
    (b"BITAND", &[LARGE, LARGE], LARGE, Primitive::BitAndLarge),
    (b"BITOR", &[SMALL, SMALL], SMALL, Primitive::BitOrSmall),
    (b"BITOR", &[LARGE, LARGE], LARGE, Primitive::BitOrLarge),
    (b"BITXOR", &[SMALL, SMALL], SMALL, Primitive::BitXorSmall),
    (b"BITXOR", &[LARGE, LARGE], LARGE, Primitive::BitXorLarge),
    (b"LSHIFT", &[SMALL, SMALL], SMALL, Primitive::ShiftLeftSmall),
    (b"LSHIFT", &[LARGE, LARGE], LARGE, Primitive::ShiftLeftLarge),
    (
        b"RSHIFT",
        &[SMALL, SMALL],
        SMALL,
        Primitive::ShiftRightSmall,
    ),
    (
        b"RSHIFT",
        &[LARGE, LARGE],
        LARGE,
        Primitive::ShiftRightLarge,
    ),
    (b"^", &[SMALL, SMALL], SMALL, Primitive::PowerSmall),
    (b"^", &[LARGE, LARGE], LARGE, Primitive::PowerLarge),
    (b"-", &[SMALL], SMALL, Primitive::NegateSmall),
    (b"-", &[LARGE], LARGE, Primitive::NegateLarge),
    (b"=", &[SMALL, SMALL], TRUTH, Primitive::EqualSmall),
    (b"=", &[LARGE, LARGE], TRUTH, Primitive::EqualLarge),
    (b"=/=", &[SMALL, SMALL], TRUTH, Primitive::UnequalSmall),
    (b"=/=", &[LARGE, LARGE], TRUTH, Primitive::UnequalLarge),
    (b"<", &[SMALL, SMALL], TRUTH, Primitive::LessSmall),
    (b"<", &[LARGE, LARGE], TRUTH, Primitive::LessLarge),
    (b"<=", &[SMALL, SMALL], TRUTH, Primitive::AtMostSmall),
    (b"<=", &[LARGE, LARGE], TRUTH, Primitive::AtMostLarge),
    (b">", &[SMALL, SMALL], TRUTH, Primitive::GreaterSmall),
    (b">", &[LARGE, LARGE], TRUTH, Primitive::GreaterLarge),
    (b">=", &[SMALL, SMALL], TRUTH, Primitive::AtLeastSmall),
    (b">=", &[LARGE, LARGE], TRUTH, Primitive::AtLeastLarge),
    (b"=", &[TEXT, TEXT], TRUTH, Primitive::EqualTexts),
    (b"=", &[TRUTH, TRUTH], TRUTH, Primitive::EqualTruths),
    (b"=/=", &[TEXT, TEXT], TRUTH, Primitive::UnequalTexts),
    (b"=/=", &[TRUTH, TRUTH], TRUTH, Primitive::UnequalTruths),
    (b"===", &[ALL, ALL], TRUTH, Primitive::Same),
    (b"AND", &[TRUTH, TRUTH], TRUTH, Primitive::And),
    (b"OR", &[TRUTH, TRUTH], TRUTH, Primitive::Or),
    (b"NOT", &[TRUTH], TRUTH, Primitive::Not),
    (b":", &[SMALL, SMALL], SPAN, Primitive::RangeTo),
    (b"#", &[SMALL, SMALL], SPAN, Primitive::RangeCount),
    (b"juxtaposition", &[TEXT, ALL], TEXT, Primitive::JoinTextAny),
    (b"juxtaposition", &[ALL, TEXT], TEXT, Primitive::JoinAnyText),
    (b"juxtaposition", &[TEXT, TEXT], TEXT, Primitive::JoinTexts),
    (b"println", &[ALL], UNIT, Primitive::Println),
    (b"print", &[ALL], UNIT, Primitive::Print),
    (b"abort", &[], UNIT, Primitive::Abort),
    (b"widen", &[SMALL], LARGE, Primitive::Widen),
    (b"narrow", &[LARGE], SMALL, Primitive::Narrow),
    (b"length", &[TEXT], SMALL, Primitive::Length),
];

/// The rows of the table.
#[tactic(auto, unfolding(crate::specs::Declarations::declarations))]
fn table() -> &'static [DeclarationRow]
    ensures rows { map declaration_of result.now ≡ declarations }
    ensures long { length result.now ≡ DECLARATION_COUNT }
{
    &DECLARATIONS
}

/// The built-in declarations, in their order.
///
/// # Errors
///
/// `Memory` where memory is wanting.
pub fn declarations(alloc: Global) -> Result<List<BuiltInDeclaration>, Memory>
    ensures { IfOk result (λ list. list ≡ declarations) }
{
    let mut list = List::new(alloc);
    for row in table() {
        list.push(declaration(alloc, row)?)?;
    }
    Ok(list)
}

/// The declaration of a row.
fn declaration(alloc: Global, row: &DeclarationRow) -> Result<BuiltInDeclaration, Memory>
    ensures { IfOk result (λ declaration. declaration ≡ declaration_of row.now) }
{
    Ok(BuiltInDeclaration {
        name: List::from_slice(alloc, row.0)?,
        parameters: types_of(alloc, row.1)?,
        result: type_of(alloc, row.2),
        primitive: row.3,
    })
}

/// The types of parameters.
fn types_of(alloc: Global, parameters: &[Simple]) -> Result<List<Ty>, Memory>
    ensures { IfOk result (λ types. types ≡ map ty_of parameters.now) }
{
    let mut types = List::new(alloc);
    for parameter in parameters {
        types.push(type_of(alloc, *parameter))?;
    }
    Ok(types)
}

/// The type; it takes no memory.
fn type_of(alloc: Global, simple: Simple) -> Ty
    ensures { result ≡ ty_of simple }
{
    match simple {
        Simple::Any => Ty::Any,
        Simple::Unit => Ty::Tuple(List::new(alloc)),
        Simple::Declared(id) => Ty::Named(id),
    }
}

/// What a built-in declaration is to the machine, by the name and the number of parameters of its
/// overload set and its position there, counted from 0; `None` where the set has fewer built-in
/// declarations. It takes no memory.
///
/// In an overload set of functions the built-in declarations stand first, in this order.
pub fn primitive(name: &[u8], width: usize, at: usize) -> Option<Primitive>
    ensures { result ≡ slice_get (primitives_of name.now width) at }
{
    let mut left = at;
    for row in table() {
        if !is_of(row, name, width) {
            continue;
        }
        if left == 0 {
            return Some(row.3);
        }
        left -= 1;
    }
    None
}

/// Whether a row has a name and so many parameters.
fn is_of(row: &DeclarationRow, name: &[u8], width: usize) -> bool
    ensures { result ≡ has name.now width (declaration_of row.now) }
{
    row.0 == name && row.1.len() == width
}

/// The name of a built-in function that no operator names, by its number among them; past them no
/// bytes.
pub fn function_name(number: usize) -> &'static [u8]
    ensures { result.now ≡ get_or function_spellings number [] }
{
    if number >= FUNCTION_COUNT {
        return b"";
    }
    match table().get(OPERATOR_COUNT + number) {
        Some(row) => row.0,
        None => b"",
    }
}
