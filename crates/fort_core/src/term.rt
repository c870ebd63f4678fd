//! Terms.
ghost use Rattle.std.specs.Prelude.{◌+◌};
ghost use Rattle.fort_core.specs.Weights.{Sheds, waits, weight};

use crate::form::{Mode, Order, Slot, Span};
use crate::release::{Left, Shed, Spent, drop_spent, many, one, spend, three, two};
use crate::value::{Closure, Value};
use fort_base::{List, Loc, NameId, SetId, Shared, Ty};

/// A term of the machine, one variant for each form that steps; its parts may be parts of other
/// terms too, in any threads.
///
/// A term is finished where it is a value or a throw of a value. In a parallel form each part is a
/// thread; the others go on at their next part, which is the first unfinished one in the order in
/// which their parts are written here. Bodies, rests, clauses, blocks of `if`, and what stands
/// behind a `then` are no parts: the step of their form goes on as one of them.
///
/// Variables are numbered in each declaration in the order of binding. No binder stands inside
/// another of its number.
#[cycle(core)]
pub enum Term {
    /// A value: a constant, a single object, `()`, or what a step has answered. Finished.
    Value(Value),
    /// `throw e`. Finished once `e` is a value.
    Throw(Shared<Term>),
    /// An immutable variable: a parameter, a local, or the name of a generator or a clause. Its
    /// value takes its place; a closed term has none.
    Variable(u32),
    /// `(a, b)`, parallel. With all parts values it is that value and not this form, but for a
    /// tuple that is too deep: that one steps to a throw of `DepthExceeded`.
    Group(List<Shared<Term>>),
    /// `fn (x: T) => e`. Once it holds all that it needs it is that value and not this form, but
    /// for a function that is too deep: that one steps to a throw of `DepthExceeded`.
    Fn(Shared<Closure>),
    /// A call of a function, a method or a constructor by its set, parallel; a receiver is an
    /// argument. Steps to the body with its parameters replaced, to a primitive's answer, or to a
    /// new object.
    Call(SetId, List<Shared<Term>>),
    /// A call of an operator, its operands left to right. Steps as a call.
    Operator(SetId, List<Shared<Term>>),
    /// A function value and its argument, parallel. Steps to the body, with the argument and the
    /// held values in the places of their variables.
    Apply(Shared<Term>, Shared<Term>),
    /// `array⟦T⟧(n).fill(v)`: T, n, v. Steps to a new array, or to a throw of `NegativeSize`.
    Fill(Shared<Ty>, Shared<Term>, Shared<Term>),
    /// `x: T = e`, or `(x, y): (T, U) = e` with the variables of the names: the variables with
    /// their types, e, and the rest of the block. Steps to the rest, with the value or its parts in
    /// their places.
    Let(Shared<List<(u32, Ty)>>, Shared<Term>, Shared<Term>),
    /// `var x: T := e`: the variable, T, e, and the rest of the block. Steps to the rest, with a
    /// fresh location in the variable's place.
    Mutable(u32, Shared<Ty>, Shared<Term>, Shared<Term>),
    /// The value of a mutable variable, or of a top-level one. Steps to it.
    Read(Slot),
    /// `x := e` of a mutable variable: the variable, e. Steps to `()`.
    Write(Slot, Shared<Term>),
    /// `o.f`: o, f. Steps to the field's value.
    ReadField(Shared<Term>, NameId),
    /// `o.f := e`: o, f, e. Steps to `()`.
    WriteField(Shared<Term>, NameId, Shared<Term>),
    /// `a[i]`: a, i. Steps to the element's value, or to a throw of `IndexOutOfRange`.
    ReadElement(Shared<Term>, Shared<Term>),
    /// `a[i] := e`: a, i, e. Steps to `()`, or to a throw of `IndexOutOfRange`.
    WriteElement(Shared<Term>, Shared<Term>, Shared<Term>),
    /// `a.size()` of an array. Steps to the number of its elements.
    Size(Shared<Term>),
    /// `a; b`. Steps to b once a is a value.
    Then(Shared<Term>, Shared<Term>),
    /// `if c then a else b`. Steps to a or b.
    If(Shared<Term>, Shared<Term>, Shared<Term>),
    /// `while c do b end`. Steps to `if c then (b; while c do b end) else ()`, before c is looked
    /// at.
    While(Shared<Term>, Shared<Term>),
    /// `typecase x = e of T => a; .. else => b end`: the variable, e, the clauses in their order,
    /// b. Steps to the first clause whose type the value has, or to b, with the value in the
    /// variable's place. Without a written `else` b is the throw of `MatchFailure`.
    Typecase(u32, Shared<Term>, List<(Shared<Term>, Shared<Ty>)>, Shared<Term>),
    /// `for x <- e do b end`: its order, its span, the variable, e, b. Once e is a value: over no
    /// item it steps to `()`. In parallel, over one item it steps to b with the item, over more to
    /// both halves. In `seq`, over one item or more, it steps to b with the first item, then itself
    /// over the rest.
    For(Order, Span, u32, Shared<Term>, Shared<Term>),
    /// Both halves of a parallel `for`, the first half rounded up; parallel. Stands only in a run.
    /// Steps to `()`.
    ForHalves(Shared<Term>, Shared<Term>),
    /// `SUM[x <- e] b` and its like: its order, its span, the set of its operator, what it gives
    /// over no item, the variable, e, b. Once e is a value: over no item it steps to its neutral
    /// value, or to the throw of `EmptyReduction`; over one item to b with the item; over more to
    /// both halves, under its operator.
    Reduce(Order, Span, SetId, Shared<Term>, u32, Shared<Term>, Shared<Term>),
    /// Both halves of a parallel reduction, the first half rounded up, under its operator;
    /// parallel. Stands only in a run. Steps as a call of the operator. Halves of a `seq` reduction
    /// are operands of `Operator`.
    ReduceHalves(SetId, Shared<Term>, Shared<Term>),
    /// `do a also do b end`, parallel. Steps to `()`.
    Also(List<Shared<Term>>),
    /// `try a catch x T => b; .. finally c end`: a, the variable, the clauses in their order, c
    /// where it is written. Once a is a value or a throw, it steps to what is to come of it: the
    /// value, the first clause whose type the thrown value has with that value in the variable's
    /// place, or the throw. With a `finally` it steps to c, then that. Without a clause the
    /// variable stands for nothing.
    Try(Shared<Term>, u32, List<(Shared<Term>, Shared<Ty>)>, Option<Shared<Term>>),
    /// `atomic e`, `tryatomic e`, before an attempt. One attempt takes it to the value or the throw
    /// with which its inner run ends. Aborted, `atomic` sleeps and `tryatomic` throws
    /// `TryAtomicFailure`.
    Atomic(Mode, Shared<Term>),
    /// An `atomic` whose last attempt was aborted, with its body as it was: what that attempt read
    /// of the store that it began from, with the values there, in rising order of the locations,
    /// each once. It sleeps while all these values are there. Stands only in a run. One attempt
    /// takes it on as `Atomic`.
    Asleep(List<(Loc, Value)>, Shared<Term>),
    /// A part of a parallel form in which a step was taken; once it is finished it stands by
    /// itself. Once a part beside it is a throw, it goes on to its end, while an unfinished part
    /// that isn't so marked takes no step any more. Stands only in a run, and only there. Has no
    /// step of its own.
    Stepped(Shared<Term>),
}

impl Drop for Term {
    #[cycle(core)]
    fn drop(self) {
        let mut hand = self;
        let mut waiting = None;
        'turns: loop {
            let Shed { left, spent } = hand.shed(waiting);
            drop_spent(spent);
            match left {
                None => return,
                Some(
                    Left {
                        hand: first,
                        waiting: others,
                    },
                ) => {
                    hand = first;
                    waiting = others;
                }
            }
        }
    }
}

impl Term {
    // Takes one form apart. Clauses and marks go one in a turn.
    fn shed(self, waiting: Option<Shared<Term>>) -> Shed
        ensures { Sheds (weight self + waits waiting) (weight self) result }
    {
        match self {
            Term::Value(value) => spend(Spent::Held(value), waiting),
            Term::Throw(thrown) => one(thrown, waiting),
            Term::Variable(_) => spend(Spent::Nothing, waiting),
            Term::Group(parts) => many(parts, waiting),
            Term::Fn(closure) => spend(Spent::Held(Value::Function(closure)), waiting),
            Term::Call(_, arguments) => many(arguments, waiting),
            Term::Operator(_, operands) => many(operands, waiting),
            Term::Apply(function, argument) => two(function, argument, waiting),
            Term::Fill(_, size, value) => two(size, value, waiting),
            Term::Let(_, first, rest) => two(first, rest, waiting),
            Term::Mutable(_, _, first, rest) => two(first, rest, waiting),
            Term::Read(_) => spend(Spent::Nothing, waiting),
            Term::Write(_, value) => one(value, waiting),
            Term::ReadField(object, _) => one(object, waiting),
            Term::WriteField(object, _, value) => two(object, value, waiting),
            Term::ReadElement(array, index) => two(array, index, waiting),
            Term::WriteElement(array, index, value) => three(array, index, value, waiting),
            Term::Size(array) => one(array, waiting),
            Term::Then(first, rest) => two(first, rest, waiting),
            Term::If(test, yes, no) => three(test, yes, no, waiting),
            Term::While(test, body) => two(test, body, waiting),
            Term::Typecase(variable, subject, mut clauses, other) => match clauses.pop() {
                None => {
                    clauses.destroy_empty();
                    two(subject, other, waiting)
                }
                Some((clause, _ty)) => Shed {
                    left: Some(Left {
                        hand: Term::Typecase(variable, subject, clauses, other),
                        waiting,
                    }),
                    spent: Spent::Part(clause),
                },
            },
            Term::For(_, _, _, source, body) => two(source, body, waiting),
            Term::ForHalves(first, second) => two(first, second, waiting),
            Term::Reduce(_, _, _, empty, _, source, body) => three(empty, source, body, waiting),
            Term::ReduceHalves(_, first, second) => two(first, second, waiting),
            Term::Also(parts) => many(parts, waiting),
            Term::Try(body, variable, mut clauses, last) => match clauses.pop() {
                None => {
                    clauses.destroy_empty();
                    match last {
                        None => one(body, waiting),
                        Some(last) => two(body, last, waiting),
                    }
                }
                Some((clause, _ty)) => Shed {
                    left: Some(Left {
                        hand: Term::Try(body, variable, clauses, last),
                        waiting,
                    }),
                    spent: Spent::Part(clause),
                },
            },
            Term::Atomic(_, body) => one(body, waiting),
            Term::Asleep(mut marks, body) => match marks.pop() {
                None => {
                    marks.destroy_empty();
                    one(body, waiting)
                }
                Some((_loc, mark)) => Shed {
                    left: Some(Left {
                        hand: Term::Asleep(marks, body),
                        waiting,
                    }),
                    spent: Spent::Held(mark),
                },
            },
            Term::Stepped(part) => one(part, waiting),
        }
    }
}
