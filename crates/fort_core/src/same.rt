//! Whether two terms are alike: along the rests of blocks by a loop.
ghost use Rattle.std.specs.Prelude.{◌≡◌, ◌↔◌, IsTrue};

use crate::same_parts::{
    same_clauses, same_finally, same_marks, same_name, same_parameters, same_part, same_set,
    same_terms,
};
use crate::term::Term;

impl Term {
    /// Whether two terms are alike in every part; it takes no memory.
    #[cycle(same)]
    pub fn same(&self, other: &Term) -> bool
        ensures { IsTrue result ↔ (self.now ≡ other.now) }
    {
        let mut left = self;
        let mut right = other;
        'along: loop {
            match (left, right) {
                (Term::Then(a, b), Term::Then(c, d)) => {
                    if !same_part(a, c) {
                        return false;
                    }
                    left = b.get();
                    right = d.get();
                }
                (Term::Let(x, a, b), Term::Let(y, c, d)) => {
                    if !(same_parameters(x.get(), y.get()) && same_part(a, c)) {
                        return false;
                    }
                    left = b.get();
                    right = d.get();
                }
                (Term::Mutable(x, s, a, b), Term::Mutable(y, t, c, d)) => {
                    if !(*x == *y && s.get().same(t.get()) && same_part(a, c)) {
                        return false;
                    }
                    left = b.get();
                    right = d.get();
                }
                _ => break,
            }
        }
        left.same_last(right)
    }

    // Whether two last items of blocks are alike; any other two terms by their parts.
    #[cycle(same)]
    fn same_last(&self, other: &Term) -> bool
        ensures { IsTrue result ↔ (self.now ≡ other.now) }
    {
        match (self, other) {
            (Term::Value(v), Term::Value(w)) => v.same(w),
            (Term::Throw(a), Term::Throw(d)) => same_part(a, d),
            (Term::Variable(x), Term::Variable(y)) => *x == *y,
            (Term::Group(a), Term::Group(d)) => same_terms(a, d),
            (Term::Fn(f), Term::Fn(g)) => f.get().same(g.get()),
            (Term::Call(s, a), Term::Call(t, d)) => same_set(*s, *t) && same_terms(a, d),
            (Term::Operator(s, a), Term::Operator(t, d)) => same_set(*s, *t) && same_terms(a, d),
            (Term::Apply(a, b), Term::Apply(d, e)) => same_part(a, d) && same_part(b, e),
            (Term::Fill(s, a, b), Term::Fill(t, d, e)) => {
                s.get().same(t.get()) && same_part(a, d) && same_part(b, e)
            }
            (Term::Let(x, a, b), Term::Let(y, d, e)) => {
                same_parameters(x.get(), y.get()) && same_part(a, d) && same_part(b, e)
            }
            (Term::Mutable(x, s, a, b), Term::Mutable(y, t, d, e)) => {
                *x == *y && s.get().same(t.get()) && same_part(a, d) && same_part(b, e)
            }
            (Term::Read(s), Term::Read(t)) => *s == *t,
            (Term::Write(s, a), Term::Write(t, d)) => *s == *t && same_part(a, d),
            (Term::ReadField(a, m), Term::ReadField(d, n)) => same_name(*m, *n) && same_part(a, d),
            (Term::WriteField(a, m, b), Term::WriteField(d, n, e)) => {
                same_name(*m, *n) && same_part(a, d) && same_part(b, e)
            }
            (Term::ReadElement(a, b), Term::ReadElement(d, e)) => {
                same_part(a, d) && same_part(b, e)
            }
            (Term::WriteElement(a, b, c), Term::WriteElement(d, e, f)) => {
                same_part(a, d) && same_part(b, e) && same_part(c, f)
            }
            (Term::Size(a), Term::Size(d)) => same_part(a, d),
            (Term::Then(a, b), Term::Then(d, e)) => same_part(a, d) && same_part(b, e),
            (Term::If(a, b, c), Term::If(d, e, f)) => {
                same_part(a, d) && same_part(b, e) && same_part(c, f)
            }
            (Term::While(a, b), Term::While(d, e)) => same_part(a, d) && same_part(b, e),
            (Term::Typecase(x, a, m, b), Term::Typecase(y, d, n, e)) => {
                *x == *y && same_part(a, d) && same_clauses(m, n) && same_part(b, e)
            }
            (Term::For(o, s, x, a, b), Term::For(p, t, y, d, e)) => {
                *o == *p && *s == *t && *x == *y && same_part(a, d) && same_part(b, e)
            }
            (Term::ForHalves(a, b), Term::ForHalves(d, e)) => same_part(a, d) && same_part(b, e),
            (Term::Reduce(o, s, m, a, x, b, c), Term::Reduce(p, t, n, d, y, e, f)) => {
                *o == *p
                    && *s == *t
                    && same_set(*m, *n)
                    && *x == *y
                    && same_part(a, d)
                    && same_part(b, e)
                    && same_part(c, f)
            }
            (Term::ReduceHalves(s, a, b), Term::ReduceHalves(t, d, e)) => {
                same_set(*s, *t) && same_part(a, d) && same_part(b, e)
            }
            (Term::Also(a), Term::Also(d)) => same_terms(a, d),
            (Term::Try(a, x, m, b), Term::Try(d, y, n, e)) => {
                *x == *y && same_part(a, d) && same_clauses(m, n) && same_finally(b, e)
            }
            (Term::Atomic(m, a), Term::Atomic(n, d)) => *m == *n && same_part(a, d),
            (Term::Asleep(m, a), Term::Asleep(n, d)) => same_marks(m, n) && same_part(a, d),
            (Term::Stepped(a), Term::Stepped(d)) => same_part(a, d),
            _ => false,
        }
    }
}
