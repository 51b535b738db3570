//! The marks of classes, which their labels have.
ghost use Rattle.std.specs.Prelude.{◌≡◌, ◌<◌, length};
ghost use Rattle.ba_facts.specs.Marks.{HasMark, IsDenied, IsUpdated};

use crate::groups::Groups;
use crate::marks::Mark;

/// The mark of the number's class.
#[inline(always)]
pub(crate) fn mark_of(classes: &Groups, marks: &Vec<Mark>, n: u32) -> Mark
    requires numbered { n < classes.now.terms }
    requires marked { n < length marks.now.items }
    ensures { HasMark classes.now.merges marks.now.items n result }
{
    marks[classes.label(n) as usize]
}

/// Gives the number's class the mark.
#[inline(always)]
pub(crate) fn set_mark(classes: &Groups, marks: &mut Vec<Mark>, n: u32, mark: Mark)
    requires numbered { n < classes.now.terms }
    requires marked { n < length marks.old.items }
    ensures { IsUpdated classes.now.merges marks.old.items marks.new.items n mark }
{
    marks[classes.label(n) as usize] = mark;
}

/// Marks the number's class as one with a term that isn't NULL.
#[inline(always)]
pub(crate) fn deny(classes: &Groups, marks: &mut Vec<Mark>, n: u32)
    requires numbered { n < classes.now.terms }
    requires marked { n < length marks.old.items }
    ensures { IsDenied classes.now.merges marks.old.items marks.new.items n }
{
    let mark = mark_of(classes, marks, n);
    set_mark(
        classes,
        marks,
        n,
        Mark {
            not_null: true,
            ..mark
        },
    );
}
