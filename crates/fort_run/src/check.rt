//! The command `check`: whether a component is accepted, or its refusal.
ghost use Rattle.std.specs.Prelude.{ℕ, List as Seq, ◌≤◌, length, IfOk};
ghost use Rattle.fort_lex.specs.Files.{HasTokens};
ghost use Rattle.fort_run.specs.Reply.{CheckSays, file_limit};
ghost use Rattle.fort_run.specs.Said.{said};

use crate::answer::{Answer, refused_by};
use fort_base::{Bytes, Memory};
use fort_front::check;
use fort_lex::{Tokens, tokens};
use std::alloc::Global;

/// What is to say of the file of that name, of which all rules are asked, in the order of the
/// phases.
pub(crate) fn check_file(alloc: Global, name: Bytes, file: &Bytes) -> Result<Answer, Memory>
    requires { length file.now ≤ file_limit }
    ensures { IfOk result (λ a. CheckSays name file.now (said a)) }
{
    match tokens(alloc, file.as_slice()) {
        Ok(tokens) => accepted(alloc, name, &tokens),
        Err(fault) => refused_by(name, fault),
    }
}

/// What is to say of a file of these tokens.
fn accepted(alloc: Global, name: Bytes, tokens: &Tokens) -> Result<Answer, Memory>
    ensures { IfOk result (λ a. (file : Seq ℕ) → HasTokens file tokens.now
        → CheckSays name file (said a)) }
{
    match check(alloc, tokens) {
        Ok(_) => Ok(Answer::Accepted),
        Err(fault) => refused_by(name, fault),
    }
}
