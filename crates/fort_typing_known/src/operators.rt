//! The spellings that operators' sets are called by.
ghost use Rattle.std.specs.Prelude.{◌≡◌};
ghost use Rattle.fort_typing_known.specs.Spellings.{operator_spelling};
ghost use Rattle.fort_typing_known.specs.Read.{facts};

use crate::known::Known;
use fort_ops::Op;

/// The name of an operator's set: its first spelling, or the word.
pub fn operator_spelling<'a>(known: &Known<'a>, op: Op) -> &'a [u8]
    ensures { result.now ≡ operator_spelling (facts known.now).names op }
{
    match op {
        Op::Juxt => b"juxtaposition",
        Op::Times => b"TIMES",
        Op::Dot => b"DOT",
        Op::Div => b"DIV",
        Op::Rem => b"REM",
        Op::Mod => b"MOD",
        Op::Max => b"MAX",
        Op::Min => b"MIN",
        Op::Gcd => b"GCD",
        Op::Lcm => b"LCM",
        Op::Plus => b"+",
        Op::Minus => b"-",
        Op::BitAnd => b"BITAND",
        Op::BitOr => b"BITOR",
        Op::BitXor => b"BITXOR",
        Op::LShift => b"LSHIFT",
        Op::RShift => b"RSHIFT",
        Op::Range => b":",
        Op::Count => b"#",
        Op::Eq => b"=",
        Op::Ne => b"=/=",
        Op::Lt => b"<",
        Op::Le => b"<=",
        Op::Gt => b">",
        Op::Ge => b">=",
        Op::Same => b"===",
        Op::And => b"AND",
        Op::Or => b"OR",
        Op::Not => b"NOT",
        Op::Power => b"^",
        Op::Word(name) => match known.names.get(name as usize) {
            Some(spelling) => spelling.as_slice(),
            None => &[],
        },
    }
}
