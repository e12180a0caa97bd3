// The lines of a sheet, each with its number.
ghost use Rattle.std.specs.Prelude.{◌≡◌, ◌+◌, ◌^◌, ◌<◌, length, IfSome};
ghost use Rattle.std.specs.Option.{option_map, unwrap_or};
ghost use Rattle.sheet.specs.Lines.{Stepped};

use crate::lines::{BadLine, Line};
use crate::reader::Lines;

// The lines that are left, and the number of the next one, or the one behind them all.
#[derive(Clone, Copy)]
pub(crate) struct Numbered<'a> {
    pub(crate) number: usize,
    pub(crate) lines: Lines<'a>,
    ghost few: { number + length lines.rest.now < 2 ^ 64 },
}

impl<'a> Numbered<'a> {
    pub(crate) fn new(number: usize, lines: Lines<'a>) -> Numbered<'a>
        requires { number + length lines.rest.now < 2 ^ 64 }
        ensures number { result.number ≡ number }
        ensures lines { result.lines.rest.now ≡ lines.entry.rest.now }
    {
        Numbered { number, lines }
    }

    pub(crate) fn next_line(&mut self) -> Option<(usize, Result<Line<'a>, BadLine>)>
        ensures line { Stepped self.old.lines.rest.now (option_map (λ l. l.1) result) self.new.lines.rest.now }
        ensures number { IfSome result (λ l. l.0 ≡ self.old.number) }
        ensures next { self.new.number ≡ unwrap_or (option_map (λ l. l.0 + 1) result) self.old.number }
    {
        let line = self.lines.next()?;
        let n = self.number;
        self.number += 1;
        Some((n, line))
    }
}
