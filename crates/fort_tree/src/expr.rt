//! The trees of expressions.
use crate::declarations::Parameters;
use crate::delimited::Delimited;
use crate::spot::{Name, Sign, Spot};
use crate::types::TypeTree;
use fort_base::{Boxed, List};

/// `Expr = Flat | Assign | Open`
#[cycle(tree)]
#[derive(Drop)]
pub enum Expr {
    /// `Flat`
    Flat(Flat),
    /// `Assign = Flat (":=" | "+=" | "-=") (Flat | Head Flat)`
    Assign {
        target: Boxed<Flat>,
        sign: AssignSign,
        head: Option<Boxed<Head>>,
        value: Boxed<Flat>,
    },
    /// `Open = Head Flat`
    Open {
        head: Boxed<Head>,
        body: Boxed<Flat>,
    },
    /// `Open = Head Flat (":=" | "+=" | "-=") Flat`
    OpenAssign {
        head: Boxed<Head>,
        target: Boxed<Flat>,
        sign: AssignSign,
        value: Boxed<Flat>,
    },
}

/// The sign between a target and what is assigned to it.
#[derive(Clone, Copy, Debug, PartialEq, Eq)]
pub enum AssignSign {
    /// `":="`
    Becomes(Spot),
    /// `"+="`
    AddBecomes(Spot),
    /// `"-="`
    SubtractBecomes(Spot),
}

/// `Head = "atomic" | "tryatomic" | "throw" | "spawn" | "fn" "(" [Param ("," Param)*] ")" "=>" |
/// Big "[" Gen "]"`
#[cycle(tree)]
#[derive(Drop)]
pub enum Head {
    /// `"atomic"`
    Atomic(Spot),
    /// `"tryatomic"`
    Tryatomic(Spot),
    /// `"throw"`
    Throw(Spot),
    /// `"spawn"`
    Spawn(Spot),
    /// `"fn" "(" [Param ("," Param)*] ")" "=>"`
    Fn {
        fn_: Spot,
        left: Spot,
        parameters: Option<Parameters>,
        right: Spot,
        arrow: Spot,
    },
    /// `Big "[" Gen "]"`
    Big {
        big: Big,
        left: Spot,
        generator: Generator,
        right: Spot,
    },
}

/// `Big = "SUM" | "PROD" | "BIG" ("MAX" | "MIN" | "AND" | "OR")`; the spots are those of its words,
/// in order.
#[derive(Clone, Copy, Debug, PartialEq, Eq)]
pub enum Big {
    /// `"SUM"`
    Sum(Spot),
    /// `"PROD"`
    Prod(Spot),
    /// `"BIG" "MAX"`
    Max(Spot, Spot),
    /// `"BIG" "MIN"`
    Min(Spot, Spot),
    /// `"BIG" "AND"`
    And(Spot, Spot),
    /// `"BIG" "OR"`
    Or(Spot, Spot),
}

/// `Gen = Name "<-" Flat | Name "<-" "seq" "(" Flat ")"`
#[cycle(tree)]
#[derive(Drop)]
pub enum Generator {
    /// `Name "<-" Flat`
    Parallel {
        name: Name,
        arrow: Spot,
        source: Flat,
    },
    /// `Name "<-" "seq" "(" Flat ")"`
    Sequential {
        name: Name,
        arrow: Spot,
        seq: Spot,
        left: Spot,
        source: Flat,
        right: Spot,
    },
}

/// `Flat = Unit (Run | Infix Unit)*`
#[cycle(tree)]
#[derive(Drop)]
pub struct Flat {
    pub first: Operand,
    pub rest: List<FlatPart>,
}

/// What may follow the first unit of a flat expression.
#[cycle(tree)]
#[derive(Drop)]
pub enum FlatPart {
    /// `Run`, a unit beside the one before it; a gap stands before it.
    Run(Run),
    /// `Infix Unit`; the operator must be an infix one.
    Infix(Sign, Operand),
}

/// `Unit = ["-" | "NOT"] Run`
#[cycle(tree)]
#[derive(Drop)]
pub struct Operand {
    pub prefix: Option<Prefix>,
    pub run: Run,
}

/// A prefix operator.
#[derive(Clone, Copy, Debug, PartialEq, Eq)]
pub enum Prefix {
    /// `"-"`
    Minus(Spot),
    /// `"NOT"`
    Not(Spot),
}

/// `Run = Atom (Atom | Postfix)*`; no gap stands before any of its parts but the first.
#[cycle(tree)]
#[derive(Drop)]
pub struct Run {
    pub first: Atom,
    pub rest: List<RunPart>,
}

/// What may follow the first atom of a run.
#[cycle(tree)]
#[derive(Drop)]
pub enum RunPart {
    /// `Atom`; no atom that begins with `(` directly follows a `Postfix::Field`.
    Atom(Atom),
    /// `Postfix`
    Postfix(Postfix),
}

/// `Postfix = "[" Expr "]" | "^" Atom | "." Name | "." Name "(" [Expr ("," Expr)*] ")"`
#[cycle(tree)]
#[derive(Drop)]
pub enum Postfix {
    /// `"[" Expr "]"`
    Subscript {
        left: Spot,
        index: Boxed<Expr>,
        right: Spot,
    },
    /// `"^" Atom`
    Power {
        power: Spot,
        exponent: Atom,
    },
    /// `"." Name`
    Field {
        dot: Spot,
        name: Name,
    },
    /// `"." Name "(" [Expr ("," Expr)*] ")"`
    Call {
        dot: Spot,
        name: Name,
        left: Spot,
        arguments: Option<ExprList>,
        right: Spot,
    },
}

/// `Atom = Name | Number | Text | "true" | "false" | "self" | "(" [Expr ("," Expr)*] ")" | Delim
/// | "array" "[\" Type "\]" "(" Expr ")" "." "fill" "(" Expr ")"`
#[cycle(tree)]
#[derive(Drop)]
pub enum Atom {
    /// `Name`
    Name(Name),
    /// `Number`
    Number(u64, Spot),
    /// `Text`, by its number in the component's texts.
    Text(u32, Spot),
    /// `"true"`
    True(Spot),
    /// `"false"`
    False(Spot),
    /// `"self"`
    Self_(Spot),
    /// `"(" [Expr ("," Expr)*] ")"`
    Parens {
        left: Spot,
        contents: Option<ExprList>,
        right: Spot,
    },
    /// `Delim`
    Delimited(Boxed<Delimited>),
    /// `"array" "[\" Type "\]" "(" Expr ")" "." "fill" "(" Expr ")"`; the name must be `fill`.
    ArrayFill {
        spots: Boxed<FillSpots>,
        element: Boxed<TypeTree>,
        size: Boxed<Expr>,
        value: Boxed<Expr>,
    },
}

/// The word, the marks and the name of an array's fill, in their order; they lie in a box, so that
/// other atoms stay small.
#[derive(Clone, Copy, Debug, PartialEq, Eq)]
pub struct FillSpots {
    pub array: Spot,
    pub left: Spot,
    pub right: Spot,
    pub size_left: Spot,
    pub size_right: Spot,
    pub dot: Spot,
    pub fill: Name,
    pub value_left: Spot,
    pub value_right: Spot,
}

/// `Expr ("," Expr)*`
#[cycle(tree)]
#[derive(Drop)]
pub struct ExprList {
    pub first: Boxed<Expr>,
    pub others: List<NextExpr>,
}

/// `"," Expr`, a further expression of a list.
#[cycle(tree)]
#[derive(Drop)]
pub struct NextExpr {
    pub comma: Spot,
    pub expr: Expr,
}
