ghost use Rattle.std.specs.Prelude.{◌≡◌, ◌<◌, ◌≤◌, ◌^◌, ◌+◌, length, take, drop, get_or, IfOk, IfErr, IfSome, false};
ghost use Rattle.std.specs.List.{prefix_len};
ghost use Rattle.fort_lex_scan.specs.declared.gap.Before.TheVariants.{Other};
ghost use Rattle.fort_lex_scan.specs.Scan.{mark_of, comment_end, part_end, WithinPart};
ghost use Rattle.fort_lex_scan.specs.Gaps.{Gap, IsOpenComment, is_white, is_no_line_feed, mark, body, opens};

/// How many characters the mark at the front of a text takes: 1 for U+FEFF, else 0.
pub fn mark_len(text: &[char]) -> usize
    ensures mark { take result text.now ≡ mark text.now }
    ensures body { drop result text.now ≡ body text.now }
    ensures within { result ≤ length text.now }
{
    match text {
        ['\u{feff}', ..] => 1,
        _ => 0,
    }
}

fn is_white(c: char) -> bool
    ensures { result ≡ is_white c }
{
    matches!(c, ' ' | '\t' | '\u{c}' | '\r' | '\n')
}

/// What the character before may begin, inside a comment.
#[derive(Clone, Copy, Debug, PartialEq, Eq)]
pub enum Before {
    Other,
    Open,
    Star,
}

fn mark_of(c: char) -> Before
    ensures { result ≡ mark_of c }
{
    match c {
        '(' => Before::Open,
        '*' => Before::Star,
        _ => Before::Other,
    }
}

/// How many characters behind a comment's `(*` go up to and with its `*)`.
fn comment_end(text: &[char]) -> Option<usize>
    requires { length text.now < 2 ^ 32 }
    ensures value { result ≡ comment_end 0 Other text.now }
    ensures within { IfSome result (λ n. n ≤ length text.now) }
{
    let mut depth = 0usize;
    let mut mark = Before::Other;
    for i in 0..text.len() {
        let c = text[i];
        if mark == Before::Open && c == '*' {
            depth += 1;
            mark = Before::Other;
        } else if mark == Before::Star && c == ')' {
            if depth == 0 {
                return Some(i + 1);
            }
            depth -= 1;
            mark = Before::Other;
        } else {
            mark = mark_of(c);
        }
    }
    None
}

/// How many characters stand before the end of the line.
fn line_len(text: &[char]) -> usize
    ensures value { result ≡ prefix_len is_no_line_feed text.now }
    ensures within { result ≤ length text.now }
{
    for i in 0..text.len() {
        if text[i] == '\n' {
            return i;
        }
    }
    text.len()
}

/// The character at a place, or 0 behind the end.
pub fn at(text: &[char], i: usize) -> char
    ensures { result ≡ get_or text.now i 0 }
{
    if i < text.len() { text[i] } else { '\0' }
}

/// The part of a gap at the front of a text.
pub enum PartEnd {
    Stop,
    Unclosed,
    Part(usize),
}

fn part_end(text: &[char]) -> PartEnd
    requires some { 0 < length text.now }
    requires room { length text.now < 2 ^ 32 }
    ensures value { result ≡ part_end text.now }
    ensures within { WithinPart (length text.now) result }
{
    let first = at(text, 0);
    if is_white(first) {
        return PartEnd::Part(1);
    }
    if !(first == '(' && at(text, 1) == '*') {
        return PartEnd::Stop;
    }
    if at(text, 2) == ')' {
        return PartEnd::Part(3 + line_len(&text[3..]));
    }
    match comment_end(&text[2..]) {
        Some(n) => PartEnd::Part(2 + n),
        None => PartEnd::Unclosed,
    }
}

/// How long the gap at the front of the text is, or where the comment stands that isn't closed.
pub fn gap_len(text: &[char]) -> Result<usize, usize>
    requires { length text.now < 2 ^ 32 }
    ensures gap { IfOk result (λ n. Gap text.now (drop n text.now) × (n ≤ length text.now)) }
    ensures apart { IfOk result (λ n. opens (drop n text.now) ≡ false) }
    ensures unclosed { IfErr result (λ n. Gap text.now (drop n text.now)
        × IsOpenComment (drop n text.now)
        × (n ≤ length text.now)) }
{
    let mut len = 0usize;
    while len < text.len() {
        match part_end(&text[len..]) {
            PartEnd::Part(n) => len += n,
            PartEnd::Stop => break,
            PartEnd::Unclosed => return Err(len),
        }
    }
    Ok(len)
}
