//! Units: components with imports and exports, and APIs.
use fort_base::List;
use fort_parse_declarations::Parsed;
use fort_tree::{Export, Name, Parameters, Spot, TypeTree};

/// What a file of several is.
#[derive(Drop)]
pub enum Unit {
    /// `"component" Name ("import" Name)* ("export" Name)* (Decl by Sep) "end"`
    Component(ComponentUnit),
    /// `"api" Name (ADecl by Sep) "end"`
    Api(Api),
}

/// A component, which has no `export` of its own here, and the imports and exports that stand
/// behind its name.
#[derive(Drop)]
pub struct ComponentUnit {
    pub imports: List<Import>,
    pub exports: List<Export>,
    pub parsed: Parsed,
}

/// `"import" Name`
#[derive(Clone, Copy, Debug, PartialEq, Eq)]
pub struct Import {
    pub import: Spot,
    pub name: Name,
}

/// `Api = "api" Name (ADecl by Sep) "end"`
#[derive(Drop)]
pub struct Api {
    pub api: Spot,
    pub name: Name,
    pub declarations: List<ApiDeclared>,
    pub end: Spot,
}

/// A declaration of an API, and the `;` directly after it, where there is one.
#[derive(Drop)]
pub struct ApiDeclared {
    pub declaration: ApiDeclaration,
    pub semicolon: Option<Spot>,
}

/// `ADecl = Name ":" Type | Name "(" [Param ("," Param)*] ")" ":" Type | "trait" Name | "object"
/// Name`
#[derive(Drop)]
pub enum ApiDeclaration {
    /// `Name ":" Type`
    Variable {
        name: Name,
        colon: Spot,
        ty: TypeTree,
    },
    /// `Name "(" [Param ("," Param)*] ")" ":" Type`
    Function(FunctionHead),
    /// `"trait" Name`
    Trait {
        trait_: Spot,
        name: Name,
    },
    /// `"object" Name`
    Object {
        object: Spot,
        name: Name,
    },
}

/// `Name "(" [Param ("," Param)*] ")" ":" Type`
#[derive(Drop)]
pub struct FunctionHead {
    pub name: Name,
    pub left: Spot,
    pub parameters: Option<Parameters>,
    pub right: Spot,
    pub colon: Spot,
    pub result: TypeTree,
}
