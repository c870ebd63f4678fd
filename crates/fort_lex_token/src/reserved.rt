/// A reserved word. Each variant's comment is its spellings, the ASCII one first.
#[derive(Clone, Copy, Debug, PartialEq, Eq)]
pub enum Reserved {
    /// `component`
    Component,
    /// `export`
    Export,
    /// `import`
    Import,
    /// `api`
    Api,
    /// `end`
    End,
    /// `trait`
    Trait,
    /// `object`
    Object,
    /// `extends`
    Extends,
    /// `excludes`
    Excludes,
    /// `comprises`
    Comprises,
    /// `opr`
    Opr,
    /// `self`
    Self_,
    /// `var`
    Var,
    /// `do`
    Do,
    /// `also`
    Also,
    /// `if`
    If,
    /// `then`
    Then,
    /// `elif`
    Elif,
    /// `else`
    Else,
    /// `while`
    While,
    /// `for`
    For,
    /// `seq`
    Seq,
    /// `case`
    Case,
    /// `typecase`
    Typecase,
    /// `of`
    Of,
    /// `try`
    Try,
    /// `catch`
    Catch,
    /// `finally`
    Finally,
    /// `throw`
    Throw,
    /// `fn`
    Fn,
    /// `atomic`
    Atomic,
    /// `tryatomic`
    Tryatomic,
    /// `spawn`
    Spawn,
    /// `true`
    True,
    /// `false`
    False,
    /// `array`
    Array,
    /// `BIG`
    Big,
    /// `SUM`, `∑`
    Sum,
    /// `PROD`, `∏`
    Prod,
}
