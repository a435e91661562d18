//! The lines of a text, with their numbers.

ghost use Rattle.std.specs.Prelude.{◌≡◌, ◌≤◌, ◌+◌, map, length, vec_len, IfOk};
ghost use Rattle.text_lines.specs.Lines.{lines_of};

use crate::cuts::{cut_line, without_return};
use std::alloc::Global;
use vrt_model::NoMemory;

/// A line of a text, without its line feed and a carriage return before that. Lines are counted from 1.
#[derive(Clone, Copy)]
pub struct Line<'a> {
    /// Which line of the text it is, from 1.
    pub number: u32,
    /// Its bytes without the line end. They need not be text.
    pub bytes: &'a [u8],
}

/// The lines of a text, with their numbers. A last line needs no line feed.
pub fn numbered_lines<'a>(alloc: Global, text: &'a [u8]) -> Result<Vec<Line<'a>>, NoMemory>
    requires { length text.now ≤ 16777216 }
    ensures lines { IfOk result (λ v. map (λ l. (l.number, l.bytes.now)) v.items ≡ lines_of text.entry.now) }
    ensures count { IfOk result (λ v. vec_len v ≤ length text.entry.now + 1) }
{
    let mut lines = Vec::new(alloc);
    let mut rest = text;
    let mut number = 1;
    'cuts: while let Some((line, behind)) = cut_line(rest) {
        let bytes = without_return(line);
        if lines.push(Line { number, bytes }).is_err() {
            return Err(NoMemory);
        }
        number += 1;
        rest = behind;
    }
    if rest.is_empty() {
        return Ok(lines);
    }
    match lines.push(Line {
        number,
        bytes: rest,
    }) {
        Ok(()) => Ok(lines),
        Err(_) => Err(NoMemory),
    }
}
