//! A component in which the word `spawn` stands, with the prelude before its declarations.
ghost use Rattle.std.specs.Prelude.{◌≡◌, map, IfOk, OnOk};
ghost use Rattle.fort_spawn.specs.Rewritten as spec;
ghost use Rattle.fort_spawn.specs.Rewritten.{IsRewritten};

use crate::starts::{is_run, starts};
use fort_base::{Bytes, List, Memory, NameId};
use fort_lex_token::{Kind, Reserved, Token};
use fort_parse_declarations::Parsed;
use fort_spawn_prelude::{PreludeParts, id_of, prelude};
use fort_tree::{Declaration, Declared, FunctionName, Name};
use std::alloc::Global;
use std::mem;

/// Whether the word `spawn` stands among tokens.
pub fn has_spawn(tokens: &[Token]) -> bool
    ensures { result ≡ spec.has_spawn tokens.now }
{
    for token in tokens {
        if let Kind::Word(Reserved::Spawn) = token.kind {
            return true;
        }
    }
    false
}

/// Rewrites a component: one in which the word `spawn` stands gets the prelude before its
/// declarations, and where it starts, each of its functions `run` without parameters is `run'`;
/// another one stays as it is. The chapter is
/// "Threads that are spawned".
///
/// `spawns` says whether the word stands in the component. Its only error is want of memory; then
/// nothing is said of the component.
pub fn rewritten(alloc: Global, spawns: bool, parsed: &mut Parsed) -> Result<(), Memory>
    requires { spawns ≡ spec.spawns parsed.old.component }
    ensures { OnOk result (IsRewritten parsed.old.component parsed.new.component) }
{
    if !spawns {
        return Ok(());
    }
    let starts = starts(&parsed.component);
    let found = prelude(alloc, parsed.component.names.as_slice(), starts)?;
    let PreludeParts {
        names,
        mut declarations,
    } = found;
    let own = mem::replace(&mut parsed.component.declarations, List::new(alloc));
    let own = renamed(
        starts,
        parsed.component.names.as_slice(),
        names.as_slice(),
        own,
    )?;
    declarations.append(own)?;
    parsed.component.declarations = declarations;
    parsed.component.names = names;
    Ok(())
}

/// The declarations of a component that starts or doesn't, each function `run` without parameters
/// as `run'` where it starts. `all` are the names with those of the prelude.
fn renamed(
    starts: bool,
    names: &[Bytes],
    all: &[Bytes],
    declarations: List<Declared>,
) -> Result<List<Declared>, Memory>
    ensures { IfOk result
        (λ it. it ≡ spec.renamed_over starts all.now names.now declarations) }
{
    if !starts {
        return Ok(declarations);
    }
    let run = id_of(all, b"run'")?;
    Ok(all_renamed(run, names, declarations))
}

/// Declarations, each function `run` without parameters with another number.
fn all_renamed(run: NameId, names: &[Bytes], declarations: List<Declared>) -> List<Declared>
    ensures { result ≡ map (spec.declared_as run names.now) declarations }
{
    let mut items = declarations.into_vec();
    for declared in items.iter_mut() {
        rename(run, names, declared);
    }
    List::from_vec(items)
}

/// Gives a declaration another number, where it is a function `run` without parameters.
fn rename(run: NameId, names: &[Bytes], declared: &mut Declared)
    ensures { declared.new ≡ spec.declared_as run names.now declared.old }
{
    if let Declaration::Function(function) = &mut declared.declaration {
        if is_run(names, function) {
            function.name = name_as(run, function.name);
        }
    }
}

/// A name of a function with another number, at its place.
fn name_as(run: NameId, name: FunctionName) -> FunctionName
    ensures { result ≡ spec.name_as run name }
{
    match name {
        FunctionName::Name(name) => FunctionName::Name(Name {
            id: run,
            spot: name.spot,
        }),
        other => other,
    }
}
