//! The command `show`: a component's canonical text, or its refusal.
ghost use Rattle.std.specs.Prelude.{ℕ, List as Seq, ◌≤◌, length, IfOk};
ghost use Rattle.fort_lex.specs.Files.{HasTokens, HasItsNumbers};
ghost use Rattle.fort_run.specs.Reply.{ShowSays, file_limit};
ghost use Rattle.fort_run.specs.Said.{said};

use crate::answer::{Answer, refused_by};
use fort_base::{Bytes, Memory};
use fort_front::check_grammar;
use fort_lex::{Tokens, tokens};
use fort_lex_canonical::shown;
use std::alloc::Global;

/// What is to say of the file of that name: the rules of its tokens come first, then those of the
/// grammar.
pub(crate) fn show_file(alloc: Global, name: Bytes, file: &Bytes) -> Result<Answer, Memory>
    requires { length file.now ≤ file_limit }
    ensures { IfOk result (λ a. ShowSays name file.now (said a)) }
{
    match tokens(alloc, file.as_slice()) {
        Ok(tokens) => show_tokens(alloc, name, &tokens),
        Err(fault) => refused_by(name, fault),
    }
}

/// What is to say of a file of these tokens.
fn show_tokens(alloc: Global, name: Bytes, tokens: &Tokens) -> Result<Answer, Memory>
    requires { HasItsNumbers tokens.now }
    ensures { IfOk result (λ a. (file : Seq ℕ) → HasTokens file tokens.now
        → ShowSays name file (said a)) }
{
    match check_grammar(alloc, tokens) {
        Ok(()) => Ok(Answer::Shown(shown(alloc, tokens)?)),
        Err(fault) => refused_by(name, fault),
    }
}
