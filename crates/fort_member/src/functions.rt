//! Functions and constructors, as declarations of overload sets.
ghost use Rattle.std.specs.Prelude.{◌≡◌, ◌++◌, ◌∷◌, [], get_or, length, map, IfOk, OnOk, List as Seq};
ghost use Rattle.fort_hier.specs.Names.{Spelling};
ghost use Rattle.fort_hier.specs.Numbers.{HoldsNumbers};
ghost use Rattle.fort_member.specs.Declarations.{operator_spelling, set_name, function_place, next_parameter_type, parameter_types, function_entry, next_object_parameter_type, object_types, constructor_entry};

use crate::entries::Entry;
use fort_base::{Bytes, List, Memory, Place, Ty, TypeId};
use fort_hier::{Numbers, spelled};
use fort_member_fields::written_type;
use fort_ops::Op;
use fort_tree::{
    Function, FunctionName, NextObjectParameter, NextParameter, Object, ObjectParameterList,
    Parameters,
};
use fort_types_sets::{Member, MemberKind};
use std::alloc::Global;

/// Adds a function.
pub fn add_function(
    alloc: Global,
    names: &[Bytes],
    numbers: &Numbers,
    size: usize,
    function: &Function,
    entries: &mut List<Entry>,
) -> Result<(), Memory>
    ensures { OnOk result ((list : Seq Spelling) → HoldsNumbers list numbers.now
        → length list ≡ size
        → entries.new ≡ entries.old ++ function_entry list names.now function.now ∷ []) }
{
    let parameters = types_of_parameters(alloc, names, numbers, size, &function.parameters)?;
    let result = written_type(alloc, names, numbers, size, &function.result)?;
    entries.push(Entry {
        name: name_of_set(alloc, names, function.name)?,
        dotted: false,
        member: Member {
            place: Some(place_of_function(function.name)),
            parameters,
            result,
            owner: None,
            kind: MemberKind::Concrete,
        },
    })
}

/// The types of a function's parameters.
fn types_of_parameters(
    alloc: Global,
    names: &[Bytes],
    numbers: &Numbers,
    size: usize,
    parameters: &Option<Parameters>,
) -> Result<List<Ty>, Memory>
    ensures { IfOk result (λ types. (list : Seq Spelling) → HoldsNumbers list numbers.now
        → length list ≡ size
        → types ≡ parameter_types list names.now parameters.now) }
{
    let mut types = List::new(alloc);
    if let Some(list) = parameters {
        types.push(written_type(alloc, names, numbers, size, &list.first.ty)?)?;
        add_next_parameters(
            alloc,
            names,
            numbers,
            size,
            list.others.as_slice(),
            &mut types,
        )?;
    }
    Ok(types)
}

/// Adds the types of a function's further parameters.
fn add_next_parameters(
    alloc: Global,
    names: &[Bytes],
    numbers: &Numbers,
    size: usize,
    others: &[NextParameter],
    types: &mut List<Ty>,
) -> Result<(), Memory>
    ensures { OnOk result ((list : Seq Spelling) → HoldsNumbers list numbers.now
        → length list ≡ size
        → types.new ≡ types.old ++ map (next_parameter_type list names.now) others.now) }
{
    for next in others {
        types.push(written_type(alloc, names, numbers, size, &next.parameter.ty)?)?;
    }
    Ok(())
}

/// Adds the constructor of an object, where it has parentheses.
pub fn add_constructor(
    alloc: Global,
    names: &[Bytes],
    numbers: &Numbers,
    size: usize,
    id: TypeId,
    object: &Object,
    entries: &mut List<Entry>,
) -> Result<(), Memory>
    ensures { OnOk result ((list : Seq Spelling) → HoldsNumbers list numbers.now
        → length list ≡ size
        → entries.new
        ≡ entries.old ++ constructor_entry list names.now id.0 object.now object.now.parameters) }
{
    match &object.parameters {
        Some(held) => {
            let parameters = types_of_object(alloc, names, numbers, size, &held.parameters)?;
            entries.push(Entry {
                name: List::from_slice(alloc, spelled(names, object.name))?,
                dotted: false,
                member: Member {
                    place: Some(object.name.spot.place),
                    parameters,
                    result: Ty::Named(id),
                    owner: None,
                    kind: MemberKind::Constructor(id),
                },
            })
        }
        None => Ok(()),
    }
}

/// The types of an object's value parameters.
fn types_of_object(
    alloc: Global,
    names: &[Bytes],
    numbers: &Numbers,
    size: usize,
    parameters: &Option<ObjectParameterList>,
) -> Result<List<Ty>, Memory>
    ensures { IfOk result (λ types. (list : Seq Spelling) → HoldsNumbers list numbers.now
        → length list ≡ size
        → types ≡ object_types list names.now parameters.now) }
{
    let mut types = List::new(alloc);
    if let Some(list) = parameters {
        types.push(written_type(alloc, names, numbers, size, &list.first.ty)?)?;
        add_next_of_object(
            alloc,
            names,
            numbers,
            size,
            list.others.as_slice(),
            &mut types,
        )?;
    }
    Ok(types)
}

/// Adds the types of an object's further value parameters.
fn add_next_of_object(
    alloc: Global,
    names: &[Bytes],
    numbers: &Numbers,
    size: usize,
    others: &[NextObjectParameter],
    types: &mut List<Ty>,
) -> Result<(), Memory>
    ensures { OnOk result ((list : Seq Spelling) → HoldsNumbers list numbers.now
        → length list ≡ size
        → types.new ≡ types.old ++ map (next_object_parameter_type list names.now) others.now) }
{
    for next in others {
        types.push(written_type(alloc, names, numbers, size, &next.parameter.ty)?)?;
    }
    Ok(())
}

/// The place of a function or method: that of its first token.
pub fn place_of_function(name: FunctionName) -> Place
    ensures { result ≡ function_place name }
{
    match name {
        FunctionName::Name(name) => name.spot.place,
        FunctionName::Operator(opr, _) => opr.place,
        FunctionName::Juxtaposition(opr, _) => opr.place,
    }
}

/// The name of a function's or method's set.
pub fn name_of_set(alloc: Global, names: &[Bytes], name: FunctionName) -> Result<Bytes, Memory>
    ensures { IfOk result (λ bytes. bytes ≡ set_name names.now name) }
{
    match name {
        FunctionName::Name(name) => List::from_slice(alloc, spelled(names, name)),
        FunctionName::Operator(_, sign) => List::from_slice(alloc, operator_name(names, sign.op)),
        FunctionName::Juxtaposition(_, name) => List::from_slice(alloc, spelled(names, name)),
    }
}

/// The first spelling of an operator; an operator word is its own name.
fn operator_name<'a>(names: &'a [Bytes], op: Op) -> &'a [u8]
    ensures { result.now ≡ operator_spelling names.now op }
{
    match op {
        Op::Juxt => b"juxtaposition",
        Op::Times => b"TIMES",
        Op::Dot => b"DOT",
        Op::Div => b"DIV",
        Op::Rem => b"REM",
        Op::Mod => b"MOD",
        Op::Max => b"MAX",
        Op::Min => b"MIN",
        Op::Gcd => b"GCD",
        Op::Lcm => b"LCM",
        Op::Plus => b"+",
        Op::Minus => b"-",
        Op::BitAnd => b"BITAND",
        Op::BitOr => b"BITOR",
        Op::BitXor => b"BITXOR",
        Op::LShift => b"LSHIFT",
        Op::RShift => b"RSHIFT",
        Op::Range => b":",
        Op::Count => b"#",
        Op::Eq => b"=",
        Op::Ne => b"=/=",
        Op::Lt => b"<",
        Op::Le => b"<=",
        Op::Gt => b">",
        Op::Ge => b">=",
        Op::Same => b"===",
        Op::And => b"AND",
        Op::Or => b"OR",
        Op::Not => b"NOT",
        Op::Power => b"^",
        Op::Word(number) => word(names, number),
    }
}

/// An operator word; none past the names.
fn word<'a>(names: &'a [Bytes], number: u32) -> &'a [u8]
    ensures { result.now ≡ get_or names.now number [] }
{
    match names.get(number as usize) {
        Some(bytes) => bytes.as_slice(),
        None => &[],
    }
}
