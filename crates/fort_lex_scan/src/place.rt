ghost use Rattle.std.specs.Prelude.{◌≡◌, ◌<◌, ◌≤◌, ◌^◌, ◌+◌, length};
ghost use Rattle.fort_lex_scan.specs.Places.{place_after, gap_kind};

use fort_base::{Gap, Place};

/// The place behind these characters, which begin at a place.
pub fn place_after(from: Place, text: &[char]) -> Place
    requires room { from.line + from.column + length text.now < 2 ^ 32 }
    requires begun { 0 < from.column }
    ensures value { result ≡ place_after from text.now }
    ensures begun { 0 < result.column }
    ensures small { result.line + result.column ≤ from.line + from.column + length text.now }
{
    let mut line = from.line;
    let mut column = from.column;
    for i in 0..text.len() {
        if text[i] == '\n' {
            line += 1;
            column = 1;
        } else {
            column += 1;
        }
    }
    Place { line, column }
}

/// What a gap's characters are: none, some with a line feed among them, or some without.
pub fn gap_kind(gap: &[char]) -> Gap
    ensures { result ≡ gap_kind gap.now }
{
    for i in 0..gap.len() {
        if gap[i] == '\n' {
            return Gap::Line;
        }
    }
    if gap.is_empty() {
        Gap::Empty
    } else {
        Gap::Space
    }
}
