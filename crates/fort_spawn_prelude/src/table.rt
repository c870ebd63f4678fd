//! The tokens of the prelude. The chapter "Threads that are spawned" of docs/LANGUAGE.md
//! prints it.
ghost use Rattle.std.specs.Prelude.{◌≡◌, length, map};
ghost use Rattle.fort_spawn_prelude.specs.Table.{always, entry_of, starting};

use Shape::{Name, Number, Operator, Symbol, Word};
use fort_base::Gap;
use fort_base::Gap::{Empty, Line, Space};
use fort_lex_token::{Mark, Reserved};
use fort_ops::Op;

/// What a token of the prelude is.
#[derive(Clone, Copy)]
pub enum Shape {
    /// A reserved word.
    Word(Reserved),
    /// A name.
    Name,
    /// A number.
    Number(u64),
    /// An operator.
    Operator(Op),
    /// Another symbol.
    Symbol(Mark),
}

/// A row of the table: the gap before the token, what it is, and the spelling of a name, which is
/// empty where it is none.
pub type Row = (Gap, Shape, &'static [u8]);

/// How many tokens stand in each prelude, without the `;` behind them.
pub const ALWAYS_COUNT: usize = 387;

/// How many more stand in the prelude of a component that starts.
pub const STARTING_COUNT: usize = 17;

/// The declarations that stand in each prelude.
pub const ALWAYS: [Row; ALWAYS_COUNT] = [
    // var queue': Any := ()
    (Line, Word(Reserved::Var), b""),
    (Space, Name, b"queue'"),
    (Empty, Operator(Op::Range), b""),
    (Space, Name, b"Any"),
    (Space, Symbol(Mark::Becomes), b""),
    (Space, Symbol(Mark::OpenParen), b""),
    (Empty, Symbol(Mark::CloseParen), b""),
    // var open': ZZ32 := 0
    (Line, Word(Reserved::Var), b""),
    (Space, Name, b"open'"),
    (Empty, Operator(Op::Range), b""),
    (Space, Name, b"ZZ32"),
    (Space, Symbol(Mark::Becomes), b""),
    (Space, Number(0), b""),
    // var count': ZZ32 := 0
    (Line, Word(Reserved::Var), b""),
    (Space, Name, b"count'"),
    (Empty, Operator(Op::Range), b""),
    (Space, Name, b"ZZ32"),
    (Space, Symbol(Mark::Becomes), b""),
    (Space, Number(0), b""),
    // var started': Boolean := false
    (Line, Word(Reserved::Var), b""),
    (Space, Name, b"started'"),
    (Empty, Operator(Op::Range), b""),
    (Space, Name, b"Boolean"),
    (Space, Symbol(Mark::Becomes), b""),
    (Space, Word(Reserved::False), b""),
    // object TooManyThreads extends Exception end
    (Line, Word(Reserved::Object), b""),
    (Space, Name, b"TooManyThreads"),
    (Space, Word(Reserved::Extends), b""),
    (Space, Name, b"Exception"),
    (Space, Word(Reserved::End), b""),
    // trait Thread comprises { Thread' }
    (Line, Word(Reserved::Trait), b""),
    (Space, Name, b"Thread"),
    (Space, Word(Reserved::Comprises), b""),
    (Space, Symbol(Mark::OpenBrace), b""),
    (Space, Name, b"Thread'"),
    (Space, Symbol(Mark::CloseBrace), b""),
    // wait(): ()
    (Line, Name, b"wait"),
    (Empty, Symbol(Mark::OpenParen), b""),
    (Empty, Symbol(Mark::CloseParen), b""),
    (Empty, Operator(Op::Range), b""),
    (Space, Symbol(Mark::OpenParen), b""),
    (Empty, Symbol(Mark::CloseParen), b""),
    // ready(): Boolean
    (Line, Name, b"ready"),
    (Empty, Symbol(Mark::OpenParen), b""),
    (Empty, Symbol(Mark::CloseParen), b""),
    (Empty, Operator(Op::Range), b""),
    (Space, Name, b"Boolean"),
    // val(): Any
    (Line, Name, b"val"),
    (Empty, Symbol(Mark::OpenParen), b""),
    (Empty, Symbol(Mark::CloseParen), b""),
    (Empty, Operator(Op::Range), b""),
    (Space, Name, b"Any"),
    // end
    (Line, Word(Reserved::End), b""),
    // object Thread'(body': () -> Any) extends Thread
    (Line, Word(Reserved::Object), b""),
    (Space, Name, b"Thread'"),
    (Empty, Symbol(Mark::OpenParen), b""),
    (Empty, Name, b"body'"),
    (Empty, Operator(Op::Range), b""),
    (Space, Symbol(Mark::OpenParen), b""),
    (Empty, Symbol(Mark::CloseParen), b""),
    (Space, Symbol(Mark::RightArrow), b""),
    (Space, Name, b"Any"),
    (Empty, Symbol(Mark::CloseParen), b""),
    (Space, Word(Reserved::Extends), b""),
    (Space, Name, b"Thread"),
    // var state': ZZ32 := 0
    (Line, Word(Reserved::Var), b""),
    (Space, Name, b"state'"),
    (Empty, Operator(Op::Range), b""),
    (Space, Name, b"ZZ32"),
    (Space, Symbol(Mark::Becomes), b""),
    (Space, Number(0), b""),
    // var value': Any := ()
    (Line, Word(Reserved::Var), b""),
    (Space, Name, b"value'"),
    (Empty, Operator(Op::Range), b""),
    (Space, Name, b"Any"),
    (Space, Symbol(Mark::Becomes), b""),
    (Space, Symbol(Mark::OpenParen), b""),
    (Empty, Symbol(Mark::CloseParen), b""),
    // var next': Any := ()
    (Line, Word(Reserved::Var), b""),
    (Space, Name, b"next'"),
    (Empty, Operator(Op::Range), b""),
    (Space, Name, b"Any"),
    (Space, Symbol(Mark::Becomes), b""),
    (Space, Symbol(Mark::OpenParen), b""),
    (Empty, Symbol(Mark::CloseParen), b""),
    // wait(): () = atomic if state' = 0 then abort() end
    (Line, Name, b"wait"),
    (Empty, Symbol(Mark::OpenParen), b""),
    (Empty, Symbol(Mark::CloseParen), b""),
    (Empty, Operator(Op::Range), b""),
    (Space, Symbol(Mark::OpenParen), b""),
    (Empty, Symbol(Mark::CloseParen), b""),
    (Space, Operator(Op::Eq), b""),
    (Space, Word(Reserved::Atomic), b""),
    (Space, Word(Reserved::If), b""),
    (Space, Name, b"state'"),
    (Space, Operator(Op::Eq), b""),
    (Space, Number(0), b""),
    (Space, Word(Reserved::Then), b""),
    (Space, Name, b"abort"),
    (Empty, Symbol(Mark::OpenParen), b""),
    (Empty, Symbol(Mark::CloseParen), b""),
    (Space, Word(Reserved::End), b""),
    // ready(): Boolean = state' =/= 0
    (Line, Name, b"ready"),
    (Empty, Symbol(Mark::OpenParen), b""),
    (Empty, Symbol(Mark::CloseParen), b""),
    (Empty, Operator(Op::Range), b""),
    (Space, Name, b"Boolean"),
    (Space, Operator(Op::Eq), b""),
    (Space, Name, b"state'"),
    (Space, Operator(Op::Ne), b""),
    (Space, Number(0), b""),
    // val(): Any = do
    (Line, Name, b"val"),
    (Empty, Symbol(Mark::OpenParen), b""),
    (Empty, Symbol(Mark::CloseParen), b""),
    (Empty, Operator(Op::Range), b""),
    (Space, Name, b"Any"),
    (Space, Operator(Op::Eq), b""),
    (Space, Word(Reserved::Do), b""),
    // self.wait()
    (Line, Word(Reserved::Self_), b""),
    (Empty, Symbol(Mark::Dot), b""),
    (Empty, Name, b"wait"),
    (Empty, Symbol(Mark::OpenParen), b""),
    (Empty, Symbol(Mark::CloseParen), b""),
    // if state' = 2
    (Line, Word(Reserved::If), b""),
    (Space, Name, b"state'"),
    (Space, Operator(Op::Eq), b""),
    (Space, Number(2), b""),
    // then typecase x' = value' of Exception => throw x'; else => x' end
    (Line, Word(Reserved::Then), b""),
    (Space, Word(Reserved::Typecase), b""),
    (Space, Name, b"x'"),
    (Space, Operator(Op::Eq), b""),
    (Space, Name, b"value'"),
    (Space, Word(Reserved::Of), b""),
    (Space, Name, b"Exception"),
    (Space, Symbol(Mark::DoubleArrow), b""),
    (Space, Word(Reserved::Throw), b""),
    (Space, Name, b"x'"),
    (Empty, Symbol(Mark::Semicolon), b""),
    (Space, Word(Reserved::Else), b""),
    (Space, Symbol(Mark::DoubleArrow), b""),
    (Space, Name, b"x'"),
    (Space, Word(Reserved::End), b""),
    // else value' end
    (Line, Word(Reserved::Else), b""),
    (Space, Name, b"value'"),
    (Space, Word(Reserved::End), b""),
    // end
    (Line, Word(Reserved::End), b""),
    // end
    (Line, Word(Reserved::End), b""),
    // spawn'(b': () -> Any): Thread = do
    (Line, Name, b"spawn'"),
    (Empty, Symbol(Mark::OpenParen), b""),
    (Empty, Name, b"b'"),
    (Empty, Operator(Op::Range), b""),
    (Space, Symbol(Mark::OpenParen), b""),
    (Empty, Symbol(Mark::CloseParen), b""),
    (Space, Symbol(Mark::RightArrow), b""),
    (Space, Name, b"Any"),
    (Empty, Symbol(Mark::CloseParen), b""),
    (Empty, Operator(Op::Range), b""),
    (Space, Name, b"Thread"),
    (Space, Operator(Op::Eq), b""),
    (Space, Word(Reserved::Do), b""),
    // t': Thread' = Thread'(b')
    (Line, Name, b"t'"),
    (Empty, Operator(Op::Range), b""),
    (Space, Name, b"Thread'"),
    (Space, Operator(Op::Eq), b""),
    (Space, Name, b"Thread'"),
    (Empty, Symbol(Mark::OpenParen), b""),
    (Empty, Name, b"b'"),
    (Empty, Symbol(Mark::CloseParen), b""),
    // atomic do
    (Line, Word(Reserved::Atomic), b""),
    (Space, Word(Reserved::Do), b""),
    // if count' = 64 then throw TooManyThreads end
    (Line, Word(Reserved::If), b""),
    (Space, Name, b"count'"),
    (Space, Operator(Op::Eq), b""),
    (Space, Number(64), b""),
    (Space, Word(Reserved::Then), b""),
    (Space, Word(Reserved::Throw), b""),
    (Space, Name, b"TooManyThreads"),
    (Space, Word(Reserved::End), b""),
    // count' += 1
    (Line, Name, b"count'"),
    (Space, Symbol(Mark::AddBecomes), b""),
    (Space, Number(1), b""),
    // open' += 1
    (Line, Name, b"open'"),
    (Space, Symbol(Mark::AddBecomes), b""),
    (Space, Number(1), b""),
    // t'.next' := queue'
    (Line, Name, b"t'"),
    (Empty, Symbol(Mark::Dot), b""),
    (Empty, Name, b"next'"),
    (Space, Symbol(Mark::Becomes), b""),
    (Space, Name, b"queue'"),
    // queue' := t'
    (Line, Name, b"queue'"),
    (Space, Symbol(Mark::Becomes), b""),
    (Space, Name, b"t'"),
    // end
    (Line, Word(Reserved::End), b""),
    // t'
    (Line, Name, b"t'"),
    // end
    (Line, Word(Reserved::End), b""),
    // take'(): Any = atomic do
    (Line, Name, b"take'"),
    (Empty, Symbol(Mark::OpenParen), b""),
    (Empty, Symbol(Mark::CloseParen), b""),
    (Empty, Operator(Op::Range), b""),
    (Space, Name, b"Any"),
    (Space, Operator(Op::Eq), b""),
    (Space, Word(Reserved::Atomic), b""),
    (Space, Word(Reserved::Do), b""),
    // q': Any = queue'
    (Line, Name, b"q'"),
    (Empty, Operator(Op::Range), b""),
    (Space, Name, b"Any"),
    (Space, Operator(Op::Eq), b""),
    (Space, Name, b"queue'"),
    // typecase x' = q' of
    (Line, Word(Reserved::Typecase), b""),
    (Space, Name, b"x'"),
    (Space, Operator(Op::Eq), b""),
    (Space, Name, b"q'"),
    (Space, Word(Reserved::Of), b""),
    // Thread' => queue' := x'.next'
    (Line, Name, b"Thread'"),
    (Space, Symbol(Mark::DoubleArrow), b""),
    (Space, Name, b"queue'"),
    (Space, Symbol(Mark::Becomes), b""),
    (Space, Name, b"x'"),
    (Empty, Symbol(Mark::Dot), b""),
    (Empty, Name, b"next'"),
    // else => if open' > 0 then abort() end
    (Line, Word(Reserved::Else), b""),
    (Space, Symbol(Mark::DoubleArrow), b""),
    (Space, Word(Reserved::If), b""),
    (Space, Name, b"open'"),
    (Space, Operator(Op::Gt), b""),
    (Space, Number(0), b""),
    (Space, Word(Reserved::Then), b""),
    (Space, Name, b"abort"),
    (Empty, Symbol(Mark::OpenParen), b""),
    (Empty, Symbol(Mark::CloseParen), b""),
    (Space, Word(Reserved::End), b""),
    // end
    (Line, Word(Reserved::End), b""),
    // q'
    (Line, Name, b"q'"),
    // end
    (Line, Word(Reserved::End), b""),
    // go'(t': Thread'): () = do
    (Line, Name, b"go'"),
    (Empty, Symbol(Mark::OpenParen), b""),
    (Empty, Name, b"t'"),
    (Empty, Operator(Op::Range), b""),
    (Space, Name, b"Thread'"),
    (Empty, Symbol(Mark::CloseParen), b""),
    (Empty, Operator(Op::Range), b""),
    (Space, Symbol(Mark::OpenParen), b""),
    (Empty, Symbol(Mark::CloseParen), b""),
    (Space, Operator(Op::Eq), b""),
    (Space, Word(Reserved::Do), b""),
    // try
    (Line, Word(Reserved::Try), b""),
    // r': Any = (t'.body')()
    (Line, Name, b"r'"),
    (Empty, Operator(Op::Range), b""),
    (Space, Name, b"Any"),
    (Space, Operator(Op::Eq), b""),
    (Space, Symbol(Mark::OpenParen), b""),
    (Empty, Name, b"t'"),
    (Empty, Symbol(Mark::Dot), b""),
    (Empty, Name, b"body'"),
    (Empty, Symbol(Mark::CloseParen), b""),
    (Empty, Symbol(Mark::OpenParen), b""),
    (Empty, Symbol(Mark::CloseParen), b""),
    // t'.value' := r'
    (Line, Name, b"t'"),
    (Empty, Symbol(Mark::Dot), b""),
    (Empty, Name, b"value'"),
    (Space, Symbol(Mark::Becomes), b""),
    (Space, Name, b"r'"),
    // t'.state' := 1
    (Line, Name, b"t'"),
    (Empty, Symbol(Mark::Dot), b""),
    (Empty, Name, b"state'"),
    (Space, Symbol(Mark::Becomes), b""),
    (Space, Number(1), b""),
    // catch e'
    (Line, Word(Reserved::Catch), b""),
    (Space, Name, b"e'"),
    // Exception => do t'.value' := e'; t'.state' := 2 end
    (Line, Name, b"Exception"),
    (Space, Symbol(Mark::DoubleArrow), b""),
    (Space, Word(Reserved::Do), b""),
    (Space, Name, b"t'"),
    (Empty, Symbol(Mark::Dot), b""),
    (Empty, Name, b"value'"),
    (Space, Symbol(Mark::Becomes), b""),
    (Space, Name, b"e'"),
    (Empty, Symbol(Mark::Semicolon), b""),
    (Space, Name, b"t'"),
    (Empty, Symbol(Mark::Dot), b""),
    (Empty, Name, b"state'"),
    (Space, Symbol(Mark::Becomes), b""),
    (Space, Number(2), b""),
    (Space, Word(Reserved::End), b""),
    // end
    (Line, Word(Reserved::End), b""),
    // atomic open' -= 1
    (Line, Word(Reserved::Atomic), b""),
    (Space, Name, b"open'"),
    (Space, Symbol(Mark::SubtractBecomes), b""),
    (Space, Number(1), b""),
    // end
    (Line, Word(Reserved::End), b""),
    // serve'(): () = do
    (Line, Name, b"serve'"),
    (Empty, Symbol(Mark::OpenParen), b""),
    (Empty, Symbol(Mark::CloseParen), b""),
    (Empty, Operator(Op::Range), b""),
    (Space, Symbol(Mark::OpenParen), b""),
    (Empty, Symbol(Mark::CloseParen), b""),
    (Space, Operator(Op::Eq), b""),
    (Space, Word(Reserved::Do), b""),
    // q': Any = take'()
    (Line, Name, b"q'"),
    (Empty, Operator(Op::Range), b""),
    (Space, Name, b"Any"),
    (Space, Operator(Op::Eq), b""),
    (Space, Name, b"take'"),
    (Empty, Symbol(Mark::OpenParen), b""),
    (Empty, Symbol(Mark::CloseParen), b""),
    // typecase x' = q' of Thread' => go'(x'); else => () end
    (Line, Word(Reserved::Typecase), b""),
    (Space, Name, b"x'"),
    (Space, Operator(Op::Eq), b""),
    (Space, Name, b"q'"),
    (Space, Word(Reserved::Of), b""),
    (Space, Name, b"Thread'"),
    (Space, Symbol(Mark::DoubleArrow), b""),
    (Space, Name, b"go'"),
    (Empty, Symbol(Mark::OpenParen), b""),
    (Empty, Name, b"x'"),
    (Empty, Symbol(Mark::CloseParen), b""),
    (Empty, Symbol(Mark::Semicolon), b""),
    (Space, Word(Reserved::Else), b""),
    (Space, Symbol(Mark::DoubleArrow), b""),
    (Space, Symbol(Mark::OpenParen), b""),
    (Empty, Symbol(Mark::CloseParen), b""),
    (Space, Word(Reserved::End), b""),
    // end
    (Line, Word(Reserved::End), b""),
    // main'(b': () -> ()): () = if started' then b'() else
    (Line, Name, b"main'"),
    (Empty, Symbol(Mark::OpenParen), b""),
    (Empty, Name, b"b'"),
    (Empty, Operator(Op::Range), b""),
    (Space, Symbol(Mark::OpenParen), b""),
    (Empty, Symbol(Mark::CloseParen), b""),
    (Space, Symbol(Mark::RightArrow), b""),
    (Space, Symbol(Mark::OpenParen), b""),
    (Empty, Symbol(Mark::CloseParen), b""),
    (Empty, Symbol(Mark::CloseParen), b""),
    (Empty, Operator(Op::Range), b""),
    (Space, Symbol(Mark::OpenParen), b""),
    (Empty, Symbol(Mark::CloseParen), b""),
    (Space, Operator(Op::Eq), b""),
    (Space, Word(Reserved::If), b""),
    (Space, Name, b"started'"),
    (Space, Word(Reserved::Then), b""),
    (Space, Name, b"b'"),
    (Empty, Symbol(Mark::OpenParen), b""),
    (Empty, Symbol(Mark::CloseParen), b""),
    (Space, Word(Reserved::Else), b""),
    // started' := true
    (Line, Name, b"started'"),
    (Space, Symbol(Mark::Becomes), b""),
    (Space, Word(Reserved::True), b""),
    // open' := 1
    (Line, Name, b"open'"),
    (Space, Symbol(Mark::Becomes), b""),
    (Space, Number(1), b""),
    // m': Thread' = Thread'(b')
    (Line, Name, b"m'"),
    (Empty, Operator(Op::Range), b""),
    (Space, Name, b"Thread'"),
    (Space, Operator(Op::Eq), b""),
    (Space, Name, b"Thread'"),
    (Empty, Symbol(Mark::OpenParen), b""),
    (Empty, Name, b"b'"),
    (Empty, Symbol(Mark::CloseParen), b""),
    // do go'(m') also do for i' <- 0#64 do serve'() end end
    (Line, Word(Reserved::Do), b""),
    (Space, Name, b"go'"),
    (Empty, Symbol(Mark::OpenParen), b""),
    (Empty, Name, b"m'"),
    (Empty, Symbol(Mark::CloseParen), b""),
    (Space, Word(Reserved::Also), b""),
    (Space, Word(Reserved::Do), b""),
    (Space, Word(Reserved::For), b""),
    (Space, Name, b"i'"),
    (Space, Symbol(Mark::LeftArrow), b""),
    (Space, Number(0), b""),
    (Empty, Operator(Op::Count), b""),
    (Empty, Number(64), b""),
    (Space, Word(Reserved::Do), b""),
    (Space, Name, b"serve'"),
    (Empty, Symbol(Mark::OpenParen), b""),
    (Empty, Symbol(Mark::CloseParen), b""),
    (Space, Word(Reserved::End), b""),
    (Space, Word(Reserved::End), b""),
    // r': Any = m'.val()
    (Line, Name, b"r'"),
    (Empty, Operator(Op::Range), b""),
    (Space, Name, b"Any"),
    (Space, Operator(Op::Eq), b""),
    (Space, Name, b"m'"),
    (Empty, Symbol(Mark::Dot), b""),
    (Empty, Name, b"val"),
    (Empty, Symbol(Mark::OpenParen), b""),
    (Empty, Symbol(Mark::CloseParen), b""),
    // end
    (Line, Word(Reserved::End), b""),
];

/// The function that stands behind them in the prelude of a component that starts.
pub const STARTING: [Row; STARTING_COUNT] = [
    // run(): () = main'(fn () => run'())
    (Line, Name, b"run"),
    (Empty, Symbol(Mark::OpenParen), b""),
    (Empty, Symbol(Mark::CloseParen), b""),
    (Empty, Operator(Op::Range), b""),
    (Space, Symbol(Mark::OpenParen), b""),
    (Empty, Symbol(Mark::CloseParen), b""),
    (Space, Operator(Op::Eq), b""),
    (Space, Name, b"main'"),
    (Empty, Symbol(Mark::OpenParen), b""),
    (Empty, Word(Reserved::Fn), b""),
    (Space, Symbol(Mark::OpenParen), b""),
    (Empty, Symbol(Mark::CloseParen), b""),
    (Space, Symbol(Mark::DoubleArrow), b""),
    (Space, Name, b"run'"),
    (Empty, Symbol(Mark::OpenParen), b""),
    (Empty, Symbol(Mark::CloseParen), b""),
    (Empty, Symbol(Mark::CloseParen), b""),
];

/// The rows of the declarations that stand in each prelude.
#[tactic(auto, unfolding(crate::specs::Table::always))]
pub(crate) fn always_rows() -> &'static [Row]
    ensures rows { map entry_of result.now ≡ always }
    ensures long { length result.now ≡ ALWAYS_COUNT }
{
    &ALWAYS
}

/// The rows of the function that stands behind them in the prelude of a component that starts.
#[tactic(auto, unfolding(crate::specs::Table::starting))]
pub(crate) fn starting_rows() -> &'static [Row]
    ensures rows { map entry_of result.now ≡ starting }
    ensures long { length result.now ≡ STARTING_COUNT }
{
    &STARTING
}
