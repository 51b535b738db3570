//! Facts that are alike: of one side and table, with terms of the same classes.
ghost use Rattle.std.specs.Prelude.{◌↔◌, IsTrue};
ghost use Rattle.std.specs.List.{AllZip};
ghost use Rattle.ba_facts.specs.Alike.{AreAlike};
ghost use Rattle.ba_facts.specs.Known.{OneClass};

use crate::branch::Branch;
use crate::knowledge::Knowledge;
use crate::term::Term;

impl Branch {
    /// Whether the facts of the two numbers are there, of one side and one table, and their terms
    /// of one class, column by column.
    pub fn are_alike(&self, left: usize, right: usize) -> bool
        ensures { IsTrue result ↔ AreAlike self.now left right }
    {
        match (self.facts.find(left), self.facts.find(right)) {
            (Some(f), Some(g)) => {
                f.side == g.side
                    && f.table == g.table
                    && self
                        .known
                        .one_class_each(f.terms.as_slice(), g.terms.as_slice())
            }
            _ => false,
        }
    }
}

impl Knowledge {
    /// Whether the rows are of one width, and their terms of one class, column by column.
    fn one_class_each(&self, left: &[Term], right: &[Term]) -> bool
        ensures { IsTrue result ↔ AllZip (OneClass self.now) left.now right.now }
    {
        match (left.split_first(), right.split_first()) {
            (Some((a, left)), Some((b, right))) => {
                self.one_class(a.by_ref(), b.by_ref()) && self.one_class_each(left, right)
            }
            (None, None) => true,
            _ => false,
        }
    }
}
