//! Names of files and places in them, as people are shown them.

use crate::excerpt::is_hidden;
use crate::names::bare;
use std::fmt::{Display, Formatter, Result, Write};
use yaml_scan_types::yaml_mark_t;

/// A name that is shown as the characters of a source line are, so that it stays on its line and does nothing to a terminal.
#[derive(Clone, Copy)]
pub struct Shown<'a>(pub &'a str);

impl Display for Shown<'_> {
    fn fmt<W: Write>(&self, f: &mut Formatter<W>) -> Result {
        for c in bare(self.0).chars() {
            if is_hidden(c) {
                let code = u32::from(c);
                write!(f, "<U+{code:04X}>")?;
            } else {
                f.write_char(c)?;
            }
        }
        Ok(())
    }
}

/// A place in a file, as people are shown it: `NAME:LINE:COLUMN`, counted from 1.
#[derive(Clone, Copy)]
pub struct At<'a> {
    pub name: &'a str,
    pub place: yaml_mark_t,
}

impl Display for At<'_> {
    fn fmt<W: Write>(&self, f: &mut Formatter<W>) -> Result {
        let name = Shown(self.name);
        let line = u128::from(self.place.line) + 1;
        let column = u128::from(self.place.column) + 1;
        write!(f, "{name}:{line}:{column}")
    }
}
