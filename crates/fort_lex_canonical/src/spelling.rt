//! How single tokens are written in canonical text. The tables are those of the specs of `fort_lex`
//! and `fort_ops`.
ghost use Rattle.std.specs.Prelude.{◌≡◌};
ghost use Rattle.fort_lex_canonical.specs.Canonical.{word_text, mark_text, operator_text, gap_text};

use fort_base::Gap;
use fort_lex_token::{Mark, Reserved};
use fort_ops::Op;

/// A gap, as nothing, as a space or as a line feed.
pub fn gap_text(gap: Gap) -> &'static [u8]
    ensures { result.now ≡ gap_text gap }
{
    match gap {
        Gap::Empty => b"",
        Gap::Space => b" ",
        Gap::Line => b"\n",
    }
}

/// A reserved word, with its sign where it has one.
pub fn word_text(word: Reserved) -> &'static [u8]
    ensures { result.now ≡ word_text word }
{
    match word {
        Reserved::Component => b"component",
        Reserved::Export => b"export",
        Reserved::Import => b"import",
        Reserved::Api => b"api",
        Reserved::End => b"end",
        Reserved::Trait => b"trait",
        Reserved::Object => b"object",
        Reserved::Extends => b"extends",
        Reserved::Excludes => b"excludes",
        Reserved::Comprises => b"comprises",
        Reserved::Opr => b"opr",
        Reserved::Self_ => b"self",
        Reserved::Var => b"var",
        Reserved::Do => b"do",
        Reserved::Also => b"also",
        Reserved::If => b"if",
        Reserved::Then => b"then",
        Reserved::Elif => b"elif",
        Reserved::Else => b"else",
        Reserved::While => b"while",
        Reserved::For => b"for",
        Reserved::Seq => b"seq",
        Reserved::Case => b"case",
        Reserved::Typecase => b"typecase",
        Reserved::Of => b"of",
        Reserved::Try => b"try",
        Reserved::Catch => b"catch",
        Reserved::Finally => b"finally",
        Reserved::Throw => b"throw",
        Reserved::Fn => b"fn",
        Reserved::Atomic => b"atomic",
        Reserved::Tryatomic => b"tryatomic",
        Reserved::Spawn => b"spawn",
        Reserved::True => b"true",
        Reserved::False => b"false",
        Reserved::Array => b"array",
        Reserved::Big => b"BIG",
        Reserved::Sum => "∑".as_bytes(),
        Reserved::Prod => "∏".as_bytes(),
    }
}

/// Another symbol, with its sign where it has one.
pub fn mark_text(mark: Mark) -> &'static [u8]
    ensures { result.now ≡ mark_text mark }
{
    match mark {
        Mark::OpenStatic => "⟦".as_bytes(),
        Mark::CloseStatic => "⟧".as_bytes(),
        Mark::LeftArrow => "←".as_bytes(),
        Mark::RightArrow => "→".as_bytes(),
        Mark::DoubleArrow => "⇒".as_bytes(),
        Mark::Becomes => b":=",
        Mark::AddBecomes => b"+=",
        Mark::SubtractBecomes => b"-=",
        Mark::OpenParen => b"(",
        Mark::CloseParen => b")",
        Mark::OpenBracket => b"[",
        Mark::CloseBracket => b"]",
        Mark::OpenBrace => b"{",
        Mark::CloseBrace => b"}",
        Mark::Comma => b",",
        Mark::Semicolon => b";",
        Mark::Dot => b".",
    }
}

/// An operator of the table, with its sign where it has one; nothing for juxtaposition and for an
/// operator word.
pub fn operator_text(op: Op) -> &'static [u8]
    ensures { result.now ≡ operator_text op }
{
    match op {
        Op::Juxt | Op::Word(_) => b"",
        Op::Times => "×".as_bytes(),
        Op::Dot => "·".as_bytes(),
        Op::Div => b"DIV",
        Op::Rem => b"REM",
        Op::Mod => b"MOD",
        Op::Max => b"MAX",
        Op::Min => b"MIN",
        Op::Gcd => b"GCD",
        Op::Lcm => b"LCM",
        Op::Plus => b"+",
        Op::Minus => b"-",
        Op::BitAnd => b"BITAND",
        Op::BitOr => b"BITOR",
        Op::BitXor => b"BITXOR",
        Op::LShift => b"LSHIFT",
        Op::RShift => b"RSHIFT",
        Op::Range => b":",
        Op::Count => b"#",
        Op::Eq => b"=",
        Op::Ne => "≠".as_bytes(),
        Op::Lt => b"<",
        Op::Le => "≤".as_bytes(),
        Op::Gt => b">",
        Op::Ge => "≥".as_bytes(),
        Op::Same => "≡".as_bytes(),
        Op::And => "∧".as_bytes(),
        Op::Or => "∨".as_bytes(),
        Op::Not => "¬".as_bytes(),
        Op::Power => b"^",
    }
}
