/// A symbol that is neither an operator nor a word. Each variant's comment is its spellings, the
/// ASCII one first.
#[derive(Clone, Copy, Debug, PartialEq, Eq)]
pub enum Mark {
    /// `[\`, `⟦`
    OpenStatic,
    /// `\]`, `⟧`
    CloseStatic,
    /// `<-`, `←`
    LeftArrow,
    /// `->`, `→`
    RightArrow,
    /// `=>`, `⇒`
    DoubleArrow,
    /// `:=`
    Becomes,
    /// `+=`
    AddBecomes,
    /// `-=`
    SubtractBecomes,
    /// `(`
    OpenParen,
    /// `)`
    CloseParen,
    /// `[`
    OpenBracket,
    /// `]`
    CloseBracket,
    /// `{`
    OpenBrace,
    /// `}`
    CloseBrace,
    /// `,`
    Comma,
    /// `;`
    Semicolon,
    /// `.`
    Dot,
}
