//! The branches that a step makes, worked out by hand.

use super::searches::play_all;

const SCENES: &str = "A rule of two right parts makes two branches.
assumed p.0 = 2;
rule 0 | | a.0 within 1 | a.2 = 30 | a.0 union 2 | | a.0;
goal 0 | a.0 = 7 | a.1;
view 0 | | a.0
=>
rule 0 0 0 0: ok
branch 0: One 0: u.0 u.1 @0, One 1: u.2 u.3 u.4 @1 | u.0 = 7, p.0 = 2, u.4 = 30, u.2 ~ u.0 | u.1
branch 1: One 0: u.0 u.1 @0, One 2: u.2 u.3 u.4 @1 | u.0 = 7, p.0 = 2, u.2 ~ u.0 | u.1
branch 2: -

An answer of a union is of one part or the other: both have to be closed, and so has the goal's \
second part.
assumed p.0 = 2;
told 1 | a.2 = 30 | a.0 union 2 | a.0 = 2 | a.1 gives 5;
goal 1 | | a.0 union 2 | | a.1;
view 1 | | a.0;
view 2 | | a.1
=>
entry 0 0: ok
branch 0: One 1: u.0 u.1 u.2 @0, One 1: u.3 u.4 u.5 @2 | p.0 = 2, u.5 = 30, u.3 ~ 5 | u.0
branch 1: One 2: u.0 u.1 u.2 @0 | p.0 = 2 | u.1
branch 2: One 1: u.0 u.1 u.2 @0, One 2: u.3 u.4 u.5 @2 | p.0 = 2, u.3 = 2, u.4 ~ 5 | u.0
view 0 0 0 0: ok
goal 0 0 2: ok
view 1 1 0 0: ok
goal 1 1 1: ok
branch 0: -
branch 1: -
view 2 0 0 0: ok
goal 2 0 2: ok
proof: 7

The owner of a note may be NULL: it has to be split before the note's link is used.
assumed p.0 = 2;
goal 3 | | a.0
=>
link 0 0 0: CondNotShown(0)
split 0 u.1 some u.1: ok
link 1 0 0: CondNotShown(0)
link 0 0 0: ok
branch 0: One 3: u.0 u.1 u.2 @0, One 0: u.3 u.4 @1 | p.0 = 2, u.1 some u.1, u.1 ~ u.3 | u.0
branch 1: One 3: u.0 u.1 u.2 @0 | p.0 = 2, u.1 null u.1 | u.0

A comparison shows that its sides aren't NULL.
assumed p.0 = 2;
goal 3 | a.1 < 9 | a.0
=>
link 0 0 0: ok
branch 0: One 3: u.0 u.1 u.2 @0, One 0: u.3 u.4 @1 | u.1 < 9, p.0 = 2, u.1 ~ u.3 | u.0

A split adds its atom to one branch, and what is true where it isn't to the other.
assumed p.0 = 2;
goal 1 | | a.1
=>
split 0 u.0 = 3: ok
branch 0: One 1: u.0 u.1 u.2 @0 | p.0 = 2, u.0 = 3 | u.1
branch 1: One 1: u.0 u.1 u.2 @0 | p.0 = 2, u.0 <> 3 | u.1
split 0 u.0 <> 3: ok
branch 0: One 1: u.0 u.1 u.2 @0 | p.0 = 2, u.0 = 3, u.0 <> 3 | u.1
branch 2: One 1: u.0 u.1 u.2 @0 | p.0 = 2, u.0 = 3, u.0 = 3 | u.1
split 1 u.0 < p.0: ok
branch 1: One 1: u.0 u.1 u.2 @0 | p.0 = 2, u.0 <> 3, u.0 < p.0 | u.1
branch 3: One 1: u.0 u.1 u.2 @0 | p.0 = 2, u.0 <> 3, p.0 <= u.0 | u.1
split 2 3 <= u.0: ok
branch 2: One 1: u.0 u.1 u.2 @0 | p.0 = 2, u.0 = 3, u.0 = 3, 3 <= u.0 | u.1
branch 4: One 1: u.0 u.1 u.2 @0 | p.0 = 2, u.0 = 3, u.0 = 3, u.0 < 3 | u.1
split 1 u.1 null u.1: ok
branch 1: One 1: u.0 u.1 u.2 @0 | p.0 = 2, u.0 <> 3, u.0 < p.0, u.1 null u.1 | u.1
branch 5: One 1: u.0 u.1 u.2 @0 | p.0 = 2, u.0 <> 3, u.0 < p.0, u.1 some u.1 | u.1
split 3 u.1 some u.1: ok
branch 3: One 1: u.0 u.1 u.2 @0 | p.0 = 2, u.0 <> 3, p.0 <= u.0, u.1 some u.1 | u.1
branch 6: One 1: u.0 u.1 u.2 @0 | p.0 = 2, u.0 <> 3, p.0 <= u.0, u.1 null u.1 | u.1
branch 7: -

Absurd branches of splits.
assumed p.0 = 2;
goal 1 | a.0 < 5 | a.1
=>
split 0 u.0 < 5: ok
absurd 0: NotAbsurd
absurd 1: ok
absurd 1: NoBranch
split 0 u.0 = 7: ok
absurd 2: NotAbsurd
absurd 0: ok
branch 0: -
branch 1: -
branch 2: One 1: u.0 u.1 u.2 @0 | u.0 < 5, p.0 = 2, u.0 < 5, u.0 <> 7 | u.1";

#[test]
fn cases(rt: HostRuntime) {
    play_all(&rt, SCENES);
}
