//! How far a record has been read, and what its next byte makes of that.
ghost use Rattle.std.specs.Prelude.{◌≡◌, ◌^◌, true, [], IfOk, None, Some};
ghost use Rattle.fort_audit_record.specs.Reading.{after_number, after_path, after_word, begun, behind_part, grown, is_digit, next, next_after_dash, next_in_line, next_in_number, next_in_output, next_in_path, next_in_type, next_in_word, put_pick, way_end, word_text};

use fort_base::{Bytes, List, Loc, Memory, TypeId};
use fort_core::{Ending, Path, Pick, Value};
use std::alloc::Global;

/// The words of a record.
#[derive(Clone, Copy, PartialEq, Eq)]
pub enum Word {
    Head,
    Step,
    Attempt,
    End,
    Completed,
    Uncaught,
    Out,
    Output,
}

/// What a number below 2 to the 64 is.
#[derive(Clone, Copy, PartialEq, Eq)]
pub enum Field {
    Fuel,
    Location,
    Base,
    Size,
}

/// Whose path is read.
#[derive(Clone, Copy, PartialEq, Eq)]
pub enum Way {
    Step,
    Attempt,
}

/// What is being read.
#[derive(Clone, Copy, PartialEq, Eq)]
pub enum Stage {
    /// A word, of which so many bytes were read.
    Word(Word, usize),
    /// A number's digits.
    Number(Field),
    /// The number of the type of what was thrown.
    Type,
    /// A path's numbers.
    Path(Way),
    /// What ends an empty path.
    Dash(Way),
    /// The beginning of a line.
    Line,
    /// The output, of which so many bytes are to come.
    Output(u64),
}

/// An attempt whose picks are being read.
#[derive(Drop)]
pub struct Open {
    pub path: Path,
    /// The picks before it of the machine round it.
    pub before: List<Pick>,
}

/// How far a record has been read.
#[derive(Drop)]
pub struct Reader {
    pub stage: Stage,
    pub fuel: u64,
    /// Whether the pick behind `out` is being read.
    pub is_last: bool,
    /// The picks of the run, while the pick behind `out` is being read.
    pub main: List<Pick>,
    /// The attempts that are open, the outermost one first.
    pub attempts: List<Open>,
    /// The picks of the innermost machine.
    pub picks: List<Pick>,
    /// The numbers of a path so far.
    pub path: List<u32>,
    /// The number of a path or of a type so far, if it has a digit.
    pub part: Option<u32>,
    /// The number of a field so far, if it has a digit.
    pub number: Option<u64>,
    /// The type of what was thrown.
    pub ty: u32,
    pub ending: Ending,
    pub output: Bytes,
}

impl Word {
    pub fn text(self) -> &'static [u8]
        ensures { result.now ≡ word_text self }
    {
        match self {
            Word::Head => b"fortress record 1\nfuel ",
            Word::Step => b"s ",
            Word::Attempt => b"a ",
            Word::End => b"z\n",
            Word::Completed => b"completed\n",
            Word::Uncaught => b"uncaught ",
            Word::Out => b"out\n",
            Word::Output => b"output ",
        }
    }
}

impl Way {
    /// The byte that ends the path.
    fn end(self) -> u8
        ensures { result ≡ way_end self }
    {
        match self {
            Way::Step => b' ',
            Way::Attempt => b'\n',
        }
    }
}

fn is_digit(byte: u8) -> bool
    ensures { result ≡ is_digit byte }
{
    byte >= b'0' && byte <= b'9'
}

// A number with a digit more, or none where it begins with 0 or comes to 2 to the 64.
fn grown(number: Option<u64>, byte: u8) -> Option<u64>
    requires { is_digit byte ≡ true }
    ensures { result ≡ grown (2 ^ 64) number byte }
{
    let digit = (byte - b'0') as u64;
    match number {
        None => Some(digit),
        Some(0) => None,
        Some(number) => match number.checked_mul(10) {
            None => None,
            Some(ten) => ten.checked_add(digit),
        },
    }
}

// The same of a number below 2 to the 32.
fn grown_part(number: Option<u32>, byte: u8) -> Option<u32>
    requires { is_digit byte ≡ true }
    ensures { result ≡ grown (2 ^ 32) number byte }
{
    let digit = (byte - b'0') as u32;
    match number {
        None => Some(digit),
        Some(0) => None,
        Some(number) => match number.checked_mul(10) {
            None => None,
            Some(ten) => ten.checked_add(digit),
        },
    }
}

impl Reader {
    pub fn new(alloc: Global) -> Reader
        ensures { result ≡ begun }
    {
        Reader {
            stage: Stage::Word(Word::Head, 0),
            fuel: 0,
            is_last: false,
            main: List::new(alloc),
            attempts: List::new(alloc),
            picks: List::new(alloc),
            path: List::new(alloc),
            part: None,
            number: None,
            ty: 0,
            ending: Ending::NotRun,
            output: List::new(alloc),
        }
    }

    /// Reads a byte, or answers none where no record has it here.
    pub fn read(self, alloc: Global, byte: u8) -> Result<Option<Reader>, Memory>
        ensures { IfOk result (λ read. read ≡ next self byte) }
    {
        match self.stage {
            Stage::Word(word, count) => self.in_word(alloc, word, count, byte),
            Stage::Number(field) => self.in_number(alloc, field, byte),
            Stage::Type => Ok(self.in_type(byte)),
            Stage::Path(way) => self.in_path(alloc, way, byte),
            Stage::Dash(way) => self.after_dash(alloc, way, byte),
            Stage::Line => Ok(self.in_line(byte)),
            Stage::Output(left) => self.in_output(left, byte),
        }
    }

    fn in_word(
        self,
        alloc: Global,
        word: Word,
        count: usize,
        byte: u8,
    ) -> Result<Option<Reader>, Memory>
        ensures { IfOk result (λ read. read ≡ next_in_word self word count byte) }
    {
        let text = word.text();
        match text.get(count) {
            None => return Ok(None),
            Some(wanted) => {
                if *wanted != byte {
                    return Ok(None);
                }
            }
        }
        if count + 1 == text.len() {
            return Ok(Some(self.after_word(alloc, word)?));
        }
        Ok(Some(Reader {
            stage: Stage::Word(word, count + 1),
            ..self
        }))
    }

    fn after_word(self, alloc: Global, word: Word) -> Result<Reader, Memory>
        ensures { IfOk result (λ read. read ≡ after_word self word) }
    {
        match word {
            Word::Head => Ok(self.at_number(Field::Fuel)),
            Word::Step => Ok(self.at_path(alloc, Way::Step)),
            Word::Attempt => Ok(self.at_path(alloc, Way::Attempt)),
            Word::End => self.closed(alloc),
            Word::Completed => Ok(Reader {
                ending: Ending::Completed,
                stage: Stage::Word(Word::Output, 0),
                ..self
            }),
            Word::Uncaught => Ok(Reader {
                stage: Stage::Type,
                part: None,
                ..self
            }),
            Word::Out => Ok(self.at_last_pick(alloc)),
            Word::Output => Ok(self.at_number(Field::Size)),
        }
    }

    fn at_number(self, field: Field) -> Reader
        ensures { result ≡ (record self { stage = Stage.Number field; number = None }) }
    {
        Reader {
            stage: Stage::Number(field),
            number: None,
            ..self
        }
    }

    fn at_path(self, alloc: Global, way: Way) -> Reader
        ensures { result ≡ (record self { stage = Stage.Path way; path = []; part = None }) }
    {
        Reader {
            stage: Stage::Path(way),
            path: List::new(alloc),
            part: None,
            ..self
        }
    }

    // The pick behind `out` comes next.
    fn at_last_pick(self, alloc: Global) -> Reader
        ensures { result ≡ after_word self Word.Out }
    {
        let picks = List::new(alloc);
        Reader {
            is_last: true,
            main: self.picks,
            picks,
            stage: Stage::Line,
            ..self
        }
    }

    // The innermost attempt was read.
    fn closed(self, alloc: Global) -> Result<Reader, Memory>
        ensures { IfOk result (λ read. read ≡ after_word self Word.End) }
    {
        let mut reader = self;
        match reader.attempts.pop() {
            None => Ok(reader),
            Some(Open { path, before }) => {
                let pick = Pick::Attempt(path, reader.picks);
                reader.picks = before;
                reader.put_pick(alloc, pick)
            }
        }
    }

    // A pick was read.
    #[tactic(auto, unfolding(crate::specs::Reading::put_pick))]
    fn put_pick(self, alloc: Global, pick: Pick) -> Result<Reader, Memory>
        ensures { IfOk result (λ read. read ≡ put_pick self pick) }
    {
        if self.is_last && self.attempts.is_empty() {
            return Ok(Reader {
                ending: Ending::OutOfFuel(pick),
                picks: self.main,
                is_last: false,
                main: List::new(alloc),
                stage: Stage::Word(Word::Output, 0),
                ..self
            });
        }
        let mut reader = self;
        reader.picks.push(pick)?;
        reader.stage = Stage::Line;
        Ok(reader)
    }

    fn in_number(self, alloc: Global, field: Field, byte: u8) -> Result<Option<Reader>, Memory>
        ensures { IfOk result (λ read. read ≡ next_in_number self field byte) }
    {
        if is_digit(byte) {
            return Ok(match grown(self.number, byte) {
                None => None,
                Some(number) => Some(Reader {
                    number: Some(number),
                    ..self
                }),
            });
        }
        if byte != b'\n' {
            return Ok(None);
        }
        match self.number {
            None => Ok(None),
            Some(number) => Ok(Some(self.after_number(alloc, field, number)?)),
        }
    }

    fn after_number(self, alloc: Global, field: Field, number: u64) -> Result<Reader, Memory>
        ensures { IfOk result (λ read. read ≡ after_number self field number) }
    {
        match field {
            Field::Fuel => Ok(Reader {
                fuel: number,
                stage: Stage::Line,
                ..self
            }),
            Field::Location => {
                let pick = Pick::Step(Path(self.path), Loc(number));
                let reader = Reader {
                    path: List::new(alloc),
                    ..self
                };
                reader.put_pick(alloc, pick)
            }
            Field::Base => {
                let thrown = Value::Object(TypeId(self.ty), Loc(number));
                Ok(Reader {
                    ending: Ending::Uncaught(thrown),
                    stage: Stage::Word(Word::Output, 0),
                    ..self
                })
            }
            Field::Size => Ok(Reader {
                stage: Stage::Output(number),
                ..self
            }),
        }
    }

    fn in_type(self, byte: u8) -> Option<Reader>
        ensures { result ≡ next_in_type self byte }
    {
        if is_digit(byte) {
            return match grown_part(self.part, byte) {
                None => None,
                Some(part) => Some(Reader {
                    part: Some(part),
                    ..self
                }),
            };
        }
        if byte != b' ' {
            return None;
        }
        match self.part {
            None => None,
            Some(ty) => Some(Reader {
                ty,
                stage: Stage::Number(Field::Base),
                number: None,
                ..self
            }),
        }
    }

    fn in_path(self, alloc: Global, way: Way, byte: u8) -> Result<Option<Reader>, Memory>
        ensures { IfOk result (λ read. read ≡ next_in_path self way byte) }
    {
        if is_digit(byte) {
            return Ok(match grown_part(self.part, byte) {
                None => None,
                Some(part) => Some(Reader {
                    part: Some(part),
                    ..self
                }),
            });
        }
        match self.part {
            None => Ok(self.at_dash(way, byte)),
            Some(part) => self.behind_part(alloc, way, byte, part),
        }
    }

    fn at_dash(self, way: Way, byte: u8) -> Option<Reader>
        ensures { result ≡ behind_part self way byte None }
    {
        if byte == b'-' && self.path.is_empty() {
            return Some(Reader {
                stage: Stage::Dash(way),
                ..self
            });
        }
        None
    }

    fn behind_part(
        self,
        alloc: Global,
        way: Way,
        byte: u8,
        part: u32,
    ) -> Result<Option<Reader>, Memory>
        ensures { IfOk result (λ read. read ≡ behind_part self way byte (Some part)) }
    {
        if byte != b'.' && byte != way.end() {
            return Ok(None);
        }
        let mut reader = self;
        reader.path.push(part)?;
        if byte == b'.' {
            reader.part = None;
            return Ok(Some(reader));
        }
        Ok(Some(reader.after_path(alloc, way)?))
    }

    // A path was read.
    fn after_path(self, alloc: Global, way: Way) -> Result<Reader, Memory>
        ensures { IfOk result (λ read. read ≡ after_path self way self.path) }
    {
        match way {
            Way::Step => Ok(self.at_number(Field::Location)),
            Way::Attempt => self.opened(alloc),
        }
    }

    fn opened(self, alloc: Global) -> Result<Reader, Memory>
        ensures { IfOk result (λ read. read ≡ after_path self Way.Attempt self.path) }
    {
        let mut attempts = self.attempts;
        attempts.push(Open {
            path: Path(self.path),
            before: self.picks,
        })?;
        Ok(Reader {
            path: List::new(alloc),
            attempts,
            picks: List::new(alloc),
            stage: Stage::Line,
            ..self
        })
    }

    fn after_dash(self, alloc: Global, way: Way, byte: u8) -> Result<Option<Reader>, Memory>
        ensures { IfOk result (λ read. read ≡ next_after_dash self way byte) }
    {
        if byte != way.end() {
            return Ok(None);
        }
        let reader = Reader {
            path: List::new(alloc),
            ..self
        };
        Ok(Some(reader.after_path(alloc, way)?))
    }

    fn in_line(self, byte: u8) -> Option<Reader>
        ensures { result ≡ next_in_line self byte }
    {
        let is_inside = !self.attempts.is_empty();
        let may_end = !is_inside && !self.is_last;
        match byte {
            b's' => Some(self.at_word(Word::Step)),
            b'a' => Some(self.at_word(Word::Attempt)),
            b'z' if is_inside => Some(self.at_word(Word::End)),
            b'c' if may_end => Some(self.at_word(Word::Completed)),
            b'u' if may_end => Some(self.at_word(Word::Uncaught)),
            b'o' if may_end => Some(self.at_word(Word::Out)),
            _ => None,
        }
    }

    // The first byte of a word was read.
    fn at_word(self, word: Word) -> Reader
        ensures { result ≡ (record self { stage = Stage.Word word 1 }) }
    {
        Reader {
            stage: Stage::Word(word, 1),
            ..self
        }
    }

    fn in_output(self, left: u64, byte: u8) -> Result<Option<Reader>, Memory>
        ensures { IfOk result (λ read. read ≡ next_in_output self left byte) }
    {
        if left == 0 {
            return Ok(None);
        }
        let mut reader = self;
        reader.output.push(byte)?;
        reader.stage = Stage::Output(left - 1);
        Ok(Some(reader))
    }
}
