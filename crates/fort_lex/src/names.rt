ghost use Rattle.std.specs.Prelude.{◌≡◌, ◌<◌, ◌^◌, ℕ, [], ◌∷◌, ◌++◌, List as Seq, true, cond, length, string_bytes, IfOk, OnOk};
ghost use Rattle.std.proofs.Math.Utf8.{scalars};
ghost use Rattle.fort_lex.specs.Meanings.{meaning_of, is_numbered, KindFor};
ghost use Rattle.fort_lex.specs.Building.{HoldsNames, KindAt, words_with};

use crate::meaning::{Meaning, meaning_of};
use crate::text::spelled;
use fort_base::{Bytes, List, Memory, NameId};
use fort_lex_token::Kind;
use fort_ops::Op;
use indexmap::IndexMap;
use std::alloc::Global;

/// The numbers of names, and what each word that stood so far is.
#[derive(Drop)]
pub struct NameTable<'a> {
    pub names: List<Bytes>,
    pub known: IndexMap<&'a [char], Kind>,
}

impl<'a> NameTable<'a> {
    pub fn new(alloc: Global) -> NameTable<'a>
        ensures { HoldsNames [] result }
    {
        NameTable {
            names: List::new(alloc),
            known: IndexMap::new(alloc),
        }
    }

    /// The names, each by its number.
    pub fn into_names(self) -> List<Bytes>
        ensures { result ≡ self.entry.names }
    {
        let NameTable { names, known: _ } = self;
        names
    }

    /// The kind of a word that is neither a number nor a text; a new name gets the next number.
    pub fn kind_of(&mut self, alloc: Global, word: &'a [char]) -> Result<Kind, Memory>
        requires room { length self.old.names < 2 ^ 31 }
        requires scalars { scalars word.now ≡ true }
        ensures kind { IfOk result (λ k. (words : Seq (Seq ℕ)) → HoldsNames words self.old
            → KindFor (words_with words word.now) word.now (meaning_of word.now) k) }
        ensures held { OnOk result ((words : Seq (Seq ℕ)) → HoldsNames words self.old
            → HoldsNames (words_with words word.now) self.new) }
    {
        if let Some(kind) = self.known.get(word) {
            return Ok(*kind);
        }
        let text = spelled(alloc, word)?;
        let kind = self.kind_for(meaning_of(word, &text), text)?;
        self.known.insert(word, kind)?;
        Ok(kind)
    }

    /// The kind of a word of that meaning that is not known yet.
    fn kind_for(&mut self, meaning: Meaning, text: String) -> Result<Kind, Memory>
        requires { length self.old.names < 2 ^ 31 }
        ensures kind { IfOk result (KindAt (length self.old.names) meaning) }
        ensures names { OnOk result (self.new.names
            ≡ self.old.names ++ cond (is_numbered meaning) (string_bytes text ∷ []) []) }
        ensures known { self.new.known ≡ self.old.known }
    {
        let number = self.names.len() as u32;
        match meaning {
            Meaning::Word(word) => Ok(Kind::Word(word)),
            Meaning::Mark(mark) => Ok(Kind::Mark(mark)),
            Meaning::Op(op) => Ok(Kind::Op(op)),
            Meaning::OperatorWord => {
                self.names.push(List::from_vec(text.into_bytes()))?;
                Ok(Kind::Op(Op::Word(number)))
            }
            Meaning::Name => {
                self.names.push(List::from_vec(text.into_bytes()))?;
                Ok(Kind::Name(NameId(number)))
            }
        }
    }
}
