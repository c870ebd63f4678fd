ghost use Rattle.fort_front.specs.Front.{Checks, ChecksComponent, ChecksTree, GrammarAnswers};
ghost use Rattle.std.specs.Prelude.{◌≡◌};
ghost use Rattle.fort_spawn.specs.Rewritten as spawn;

use fort_base::CheckFault;
use fort_core::Program;
use fort_elab::elaborate;
use fort_form_walk::forms;
use fort_group::groups;
use fort_hier::hierarchy;
use fort_lex_token::Tokens;
use fort_member::members;
use fort_over::overloads;
use fort_spawn::{has_spawn, rewritten};
use fort_syntax::{Parsed, component};
use fort_tree::Component;
use fort_typing::typed;
use std::alloc::Global;

/// Asks the rules of the grammar of a file's tokens, and no others.
///
/// It answers `Ok` where they are a component that passes no limit; else `Refused` with the first
/// rule that is broken and its place: 202, 201 or 203. Its only other error is want of memory,
/// which it also answers where runs stand more than 400 deep in one another, as they can in the
/// headers of `while` and `for`. The chapter is "Grammar".
pub fn check_grammar(alloc: Global, tokens: &Tokens) -> Result<(), CheckFault>
    ensures { GrammarAnswers tokens.now result }
{
    component(alloc, tokens)?;
    Ok(())
}

/// Asks all rules of a file's tokens, and makes the component's program.
///
/// It answers `Ok` where they are a component that passes no limit, whose flat expressions each
/// have a grouping, whose declared types are a hierarchy, whose fields keep their rules, whose
/// overload sets keep theirs, and whose bodies and initials have types: with the program that it
/// is. Else it answers `Refused` with the first rule that is broken and its place. The order is:
/// 202, 201 or 203; the first of 301 to 304; the lowest of 401 to 407; the lower of 451 and 452;
/// the first pair that breaks one of 501 to 506; 507; the one of 601 to 614 at the earliest place,
/// of several there the lowest, 609 last. Its only other error is want of memory, which it also
/// answers where runs stand more than 400 deep in one another, as they can in the headers of
/// `while` and `for`, and where there are more of something than numbers for it. The chapters are
/// "Grammar", "Operators", "Types", "Members", "Overload rules" and "Typing", and
/// docs/TRANSLATION.md.
pub fn check(alloc: Global, tokens: &Tokens) -> Result<Program, CheckFault>
    ensures { Checks tokens.now result }
{
    let parsed = component(alloc, tokens)?;
    let spawns = has_spawn(tokens.list.as_slice());
    let program = check_component(alloc, parsed, spawns)?;
    Ok(program)
}

/// Asks the rules behind the grammar of a component, its spawned threads rewritten, and makes its
/// program. `spawns` says whether the word `spawn` stands in it. What `check` answers of tokens is
/// what this answers of their one component. The chapter is "Threads that are spawned".
pub fn check_component(alloc: Global, parsed: Parsed, spawns: bool) -> Result<Program, CheckFault>
    requires { spawns ≡ spawn.spawns parsed.component }
    ensures { ChecksComponent parsed.component result }
{
    let mut whole = parsed;
    rewritten(alloc, spawns, &mut whole)?;
    let program = check_tree(alloc, &whole.component)?;
    Ok(program)
}

/// Asks the rules behind the grammar of a component in which no thread is spawned, and makes its
/// program.
pub fn check_tree(alloc: Global, component: &Component) -> Result<Program, CheckFault>
    ensures { ChecksTree component.now result }
{
    let groups = groups(alloc, component)?;
    let types = hierarchy(alloc, component)?;
    let members = members(alloc, component, &types)?;
    overloads(alloc, &types, &members)?;
    let forms = forms(alloc, component, &groups)?;
    let typed = typed(alloc, component.names.as_slice(), &forms, &types, &members)?;
    let program = elaborate(alloc, types, &members, component.texts.as_slice(), &typed)?;
    Ok(program)
}
