use crate::answer::{Kind, answer};
use std::io;
use std::num::Saturating;

// A line of the table.
#[derive(Clone, Copy)]
struct Row<'a> {
    kind: Kind,
    blanks: &'a str,
    token: &'a str,
    mark: &'a str,
    answer: &'a str,
}

impl<'a> Row<'a> {
    fn read(line: &'a str) -> Option<Row<'a>> {
        let mut words = line.split(' ');
        Some(Row {
            kind: Kind::from(words.next()?),
            blanks: words.next()?,
            token: words.next()?,
            mark: words.next()?,
            answer: words.next()?,
        })
    }
}

// What the program has seen of the table.
#[derive(Clone, Copy, Default)]
pub struct Counts {
    integers: Saturating<usize>,
    minuses: Saturating<usize>,
    names: Saturating<usize>,
    floats: Saturating<usize>,
    strings: Saturating<usize>,
    regexps: Saturating<usize>,
    differences: Saturating<usize>,
    mismatches: Saturating<usize>,
}

impl Counts {
    fn count(&mut self, kind: Kind) {
        let count = match kind {
            Kind::Integer => &mut self.integers,
            Kind::Minus => &mut self.minuses,
            Kind::Name => &mut self.names,
            Kind::Float => &mut self.floats,
            Kind::String => &mut self.strings,
            Kind::Regexp => &mut self.regexps,
        };
        *count += 1;
    }

    // Compares one line's answer with ours, and prints a line that differs.
    pub fn replay(&mut self, rt: &HostRuntime, line: &str) -> io::Result<()> {
        let Some(row) = Row::read(line) else {
            self.mismatches += 1;
            return println!(rt; "{line}: not read");
        };
        if row.mark == "!" {
            self.differences += 1;
        }
        self.count(row.kind);
        let given = answer(rt.alloc(), row.kind, row.blanks, row.token)?;
        if given.as_str() != row.answer {
            self.mismatches += 1;
            println!(rt; "{line}: {given}")?;
        }
        Ok(())
    }

    pub fn print(&self, rt: &HostRuntime) -> io::Result<()> {
        let Counts {
            integers,
            minuses,
            names,
            floats,
            strings,
            regexps,
            differences,
            mismatches,
        } = self;
        println!(rt; "integers {integers}, after a minus {minuses}")?;
        println!(rt; "names {names}, floats {floats}")?;
        println!(rt; "strings {strings}, regular expressions {regexps}")?;
        println!(rt; "differences on purpose {differences}")?;
        println!(rt; "mismatches {mismatches}")
    }
}
