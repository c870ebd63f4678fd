//! The trees of blocks and of the forms that end with `end`.
use crate::declarations::Variable;
use crate::expr::{Expr, Flat, Generator};
use crate::spot::{Name, NextName, Spot};
use crate::types::TypeTree;
use fort_base::{Boxed, List};

/// `Delim`: a form that begins with a word and ends with `end`.
#[cycle(tree)]
#[derive(Drop)]
pub enum Delimited {
    /// `"do" Block ("also" "do" Block)* "end"`
    Do {
        do_: Spot,
        block: Block,
        others: List<Also>,
        end: Spot,
    },
    /// `"if" Flat "then" Block ("elif" Flat "then" Block)* ["else" Block] "end"`
    If {
        if_: Spot,
        condition: Flat,
        then: Spot,
        block: Block,
        elifs: List<Elif>,
        otherwise: Option<ElseBlock>,
        end: Spot,
    },
    /// `"while" Flat "do" Block "end"`
    While {
        while_: Spot,
        condition: Flat,
        do_: Spot,
        block: Block,
        end: Spot,
    },
    /// `"for" Gen ("," Gen)* "do" Block "end"`
    For {
        for_: Spot,
        generator: Boxed<Generator>,
        others: List<NextGenerator>,
        do_: Spot,
        block: Block,
        end: Spot,
    },
    /// `"case" Flat "of" (Flat "=>" Expr by Sep) [Sep "else" "=>" Expr] "end"`; it has a clause at
    /// least.
    Case {
        case: Spot,
        subject: Flat,
        of: Spot,
        clauses: List<CaseClause>,
        otherwise: Option<Boxed<ElseClause>>,
        end: Spot,
    },
    /// `"typecase" Name "=" Flat "of" (Type "=>" Expr by Sep) [Sep "else" "=>" Expr] "end"`; it has
    /// a clause at least.
    Typecase {
        typecase: Spot,
        name: Name,
        equals: Spot,
        subject: Flat,
        of: Spot,
        clauses: List<TypeClause>,
        otherwise: Option<Boxed<ElseClause>>,
        end: Spot,
    },
    /// `"try" Block ["catch" Name (Type "=>" Expr by Sep)] ["finally" Block] "end"`; it has a
    /// `catch` or a `finally`.
    Try {
        try_: Spot,
        block: Block,
        catch: Option<Catch>,
        finally: Option<Finally>,
        end: Spot,
    },
}

/// `"also" "do" Block`
#[cycle(tree)]
#[derive(Drop)]
pub struct Also {
    pub also: Spot,
    pub do_: Spot,
    pub block: Block,
}

/// `"elif" Flat "then" Block`
#[cycle(tree)]
#[derive(Drop)]
pub struct Elif {
    pub elif: Spot,
    pub condition: Flat,
    pub then: Spot,
    pub block: Block,
}

/// `"else" Block`
#[cycle(tree)]
#[derive(Drop)]
pub struct ElseBlock {
    pub else_: Spot,
    pub block: Block,
}

/// `"," Gen`, a further generator of a `for`.
#[cycle(tree)]
#[derive(Drop)]
pub struct NextGenerator {
    pub comma: Spot,
    pub generator: Generator,
}

/// `Flat "=>" Expr`, and the `;` directly after it, where there is one.
#[cycle(tree)]
#[derive(Drop)]
pub struct CaseClause {
    pub subject: Flat,
    pub arrow: Spot,
    pub value: Expr,
    pub semicolon: Option<Spot>,
}

/// `Type "=>" Expr`, and the `;` directly after it, where there is one.
#[cycle(tree)]
#[derive(Drop)]
pub struct TypeClause {
    pub ty: TypeTree,
    pub arrow: Spot,
    pub value: Expr,
    pub semicolon: Option<Spot>,
}

/// `Sep "else" "=>" Expr`.
///
/// The `;` directly after the last clause stands with that clause, also where it is the `Sep`. Only
/// a second one stands here: the first then ends the list of clauses, and this one is the `Sep`.
#[cycle(tree)]
#[derive(Drop)]
pub struct ElseClause {
    pub semicolon: Option<Spot>,
    pub else_: Spot,
    pub arrow: Spot,
    pub value: Expr,
}

/// `"catch" Name (Type "=>" Expr by Sep)`; it has a clause at least.
#[cycle(tree)]
#[derive(Drop)]
pub struct Catch {
    pub catch: Spot,
    pub name: Name,
    pub clauses: List<TypeClause>,
}

/// `"finally" Block`
#[cycle(tree)]
#[derive(Drop)]
pub struct Finally {
    pub finally: Spot,
    pub block: Block,
}

/// `Block = Item by Sep`
pub type Block = List<BlockItem>;

/// An item of a block, and the `;` directly after it, where there is one.
#[cycle(tree)]
#[derive(Drop)]
pub struct BlockItem {
    pub item: Item,
    pub semicolon: Option<Spot>,
}

/// `Item = Var | "(" Name ("," Name)+ ")" ":" Type "=" Expr | Expr`
#[cycle(tree)]
#[derive(Drop)]
pub enum Item {
    /// `Var`
    Variable(Boxed<Variable>),
    /// `"(" Name ("," Name)+ ")" ":" Type "=" Expr`; `others` has a name at least.
    Names {
        left: Spot,
        first: Name,
        others: List<NextName>,
        right: Spot,
        colon: Spot,
        ty: Boxed<TypeTree>,
        equals: Spot,
        value: Boxed<Expr>,
    },
    /// `Expr`; it doesn't begin as a declaration of a name or of names in parentheses does, up to
    /// the `:`.
    Expr(Expr),
}
