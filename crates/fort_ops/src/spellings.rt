ghost use Rattle.std.specs.Prelude.{◌≡◌, ◌↔◌, map};
ghost use Rattle.std.specs.Str.{chars};
ghost use Rattle.fort_ops.specs.Spellings.{Spells, SpellsOneAtMost, texts};

use crate::op::Op;

const SPELLINGS: [(&str, Op); 38] = [
    ("TIMES", Op::Times),
    ("×", Op::Times),
    ("DOT", Op::Dot),
    ("·", Op::Dot),
    ("DIV", Op::Div),
    ("REM", Op::Rem),
    ("MOD", Op::Mod),
    ("MAX", Op::Max),
    ("MIN", Op::Min),
    ("GCD", Op::Gcd),
    ("LCM", Op::Lcm),
    ("+", Op::Plus),
    ("-", Op::Minus),
    ("BITAND", Op::BitAnd),
    ("BITOR", Op::BitOr),
    ("BITXOR", Op::BitXor),
    ("LSHIFT", Op::LShift),
    ("RSHIFT", Op::RShift),
    (":", Op::Range),
    ("#", Op::Count),
    ("=", Op::Eq),
    ("=/=", Op::Ne),
    ("≠", Op::Ne),
    ("<", Op::Lt),
    ("<=", Op::Le),
    ("≤", Op::Le),
    (">", Op::Gt),
    (">=", Op::Ge),
    ("≥", Op::Ge),
    ("===", Op::Same),
    ("≡", Op::Same),
    ("AND", Op::And),
    ("∧", Op::And),
    ("OR", Op::Or),
    ("∨", Op::Or),
    ("NOT", Op::Not),
    ("¬", Op::Not),
    ("^", Op::Power),
];

/// The operator that a text spells, in ASCII or in Unicode, or `None` where it is no operator's
/// spelling.
///
/// The words are those of the table in `specs/Spellings.antt`. Juxtaposition has no spelling, and
/// operator words are told by their form, so neither is answered.
pub fn spelling_of(text: &str) -> Option<Op>
    ensures { (op : Op) → (result ≡ Some op) ↔ Spells op (chars text.now) }
{
    operator_in(&SPELLINGS, text)
}

/// The operator that stands beside a text in a table that has the words of all operators.
fn operator_in(table: &[(&str, Op)], text: &str) -> Option<Op>
    requires { map (λ row. (row.1, row.0.now)) table.now ≡ texts }
    ensures { (op : Op) → (result ≡ Some op) ↔ Spells op (chars text.now) }
{
    for (spelling, op) in table {
        if text == *spelling {
            return Some(*op);
        }
    }
    None
}

/// A law of the table of spellings: one word spells at most one operator.
pub fn words_spell_one_operator()
    ensures { SpellsOneAtMost }
{}
