//! The faults of steps, in the order of their tests. After each the search is as before, and a right
//! step is taken.

use super::searches::play_all;

const SCENES: &str = "Branches that aren't open.
assumed p.0 = 2;
told 2 | a.0 = 2, a.1 = 5 | a.0 a.1 a.2 gives 2 5 100;
goal 1 | a.0 = 5 | a.1
=>
entry 1 0: NoBranch
key 1 0 0 0: NoBranch
link 1 0 0: NoBranch
rule 1 0 0 0: NoBranch
view 1 2 0 0 1: NoBranch
split 1 p.0 = 2: NoBranch
absurd 1: NoBranch
goal 1 0 2: NoBranch
entry 0 0: ok
view 0 2 0 0 1: ok
goal 0 0 2: ok
entry 0 0: NoBranch
key 0 0 0 0: NoBranch
link 0 0 1: NoBranch
rule 0 0 0 0: NoBranch
view 0 2 0 0 1: NoBranch
split 0 p.0 = 2: NoBranch
absurd 0: NoBranch
goal 0 0 2: NoBranch
proof: 3

Entries and absurd branches.
assumed p.0 = 2;
told 2 | a.0 = 2 | a.1 gives 5;
goal 1 | a.0 = 5 | a.1
=>
entry 0 1: BadRule
absurd 0: NotAbsurd
entry 0 0: ok
absurd 0: NotAbsurd
entry 0 2: BadRule
entry 0 0: ok

Keys: fact 0 is an event, and 1 to 4 are who attends what: user 2 event 5, user 2 event 5 at 100, \
somebody something at 100, and user 2 something. Fact 5 is the first of these on side Two.
assumed p.0 = 2;
told 2 | | a.0 a.1 gives 2 5;
told 2 | a.0 = 2 | a.1 a.2 gives 5 100;
told 2 | | a.2 gives 100;
told 2 | | a.0 gives 2;
goal 1 | a.0 = 5 | a.1
=>
entry 0 0: ok
entry 0 1: ok
entry 0 2: ok
entry 0 3: ok
view 0 1 0 1: ok
key 0 0 1 6: BadFact
key 0 0 6 1: BadFact
key 0 0 1 5: BadFact
key 0 0 5 1: BadFact
key 0 0 0 1: BadFact
key 0 1 1 5: BadFact
key 0 1 1 2: BadRule
key 0 1 1 3: BadRule
key 0 0 1 3: CondNotShown(0)
key 0 0 1 4: CondNotShown(1)
key 0 0 4 1: CondNotShown(1)
key 0 0 1 2: ok
key 0 0 0 0: ok

Links: fact 0 is an event, 1 that user 2 attends event 5, 2 its event, and 3 a note.
assumed p.0 = 2;
told 2 | a.0 = 2 | a.0 a.1 gives 2 5;
told 3 | | a.0 gives 7;
goal 1 | a.0 = 5 | a.1
=>
link 0 0 1: BadFact
link 0 9 1: BadFact
link 0 0 0: BadRule
entry 0 0: ok
link 0 2 1: BadRule
link 0 1 1: ok
entry 0 1: ok
link 0 0 4: BadFact
link 0 1 3: BadRule
link 0 0 3: CondNotShown(0)
view 0 2 0 2 1: ok

Rules: fact 0 is an event, 1 that user 2 attends event 5, 2 that user, 3 the same on side Two, and \
4 a user called ann.
assumed p.0 = 2;
rule 2 | | a.1 within 1 | | a.0;
rule 2 0 | a.0 = b.0, b.1 = ann | a.1 within 1 | | a.0;
told 2 | | a.0 a.1 gives 2 5;
told 0 | | a.1 gives ann;
goal 1 | a.0 = 5 | a.1;
view 0 | | a.0 a.1
=>
rule 0 2 0 0: BadRule
rule 0 0 1 0: BadRule
rule 0 2 0 9: BadRule
rule 0 0 0 1: BadFact
rule 0 0 0 0: BadFact
entry 0 0: ok
rule 0 0 0: BadFact
rule 0 0 0 1 1: BadFact
link 0 0 1: ok
view 0 0 0 2: ok
entry 0 1: ok
rule 0 1 0 1: BadFact
rule 0 1 0 2 1: BadFact
rule 0 1 0 1 3: BadFact
rule 0 1 0 1 5: BadFact
rule 0 1 0 1 4: CondNotShown(0)
rule 0 1 0 1 2: CondNotShown(1)
rule 0 0 0 1: ok

Views: fact 0 is an event, and 1 to 4 are who attends what: user 2 event 5, user 3 event 5, user 2 \
event 6, and user 3 event 6. Facts 5 and 6 are fact 0 and fact 1 on side Two.
assumed p.0 = 2;
told 2 | | a.0 a.1 gives 2 5;
told 2 | | a.0 a.1 gives 3 5;
told 2 | | a.0 a.1 gives 2 6;
told 2 | | a.0 a.1 gives 3 6;
goal 1 | a.0 = 5 | a.1
=>
view 0 3 0 0 1: BadRule
view 0 2 1 0 1: BadRule
view 0 2 0 0 1: BadFact
entry 0 0: ok
entry 0 1: ok
entry 0 2: ok
entry 0 3: ok
mappings One | 2 | a.0 = 2: [1] [3]
mappings One | 1 2 | a.0 = b.1: [0, 1] [0, 2]
mappings One | 2 | a.0 = 3, a.2 < 9: [2]?1 [4]?1
view 0 2 0 1 0: BadFact
view 0 2 0 0: BadFact
view 0 2 0 0 1 1: BadFact
view 0 2 0 0 3: CondNotShown(0)
view 0 2 0 0 4: CondNotShown(0)
view 0 2 0 0 2: CondNotShown(1)
view 0 2 0 0 1: ok
mappings Two | 1 2 | a.0 = b.1: [5, 6]
view 0 2 0 5 6: BadFact
view 0 2 0 0 6: BadFact
view 0 2 0 5 1: BadFact
goal 0 0 5: ok
proof: 6

Splits: unknowns 0 to 2 are an event's, and 3 to 5 a note's, of which the last two may be NULL.
assumed p.0 = 2;
told 3 | | a.0 gives 7;
goal 1 | a.0 = 5 | a.1
=>
split 0 u.3 = 7: BadFact
split 0 7 = u.3: BadFact
split 0 u.3 < ann: BadFact
split 0 u.0 = ann: BadRule
split 0 u.1 = 5: BadRule
split 0 u.1 = u.2: BadRule
split 0 p.0 = ann: BadRule
split 0 u.1 < ann: BadRule
split 0 u.1 <= ann: BadRule
split 0 p.1 = 5: BadRule
split 0 v.0 = 5: BadRule
split 0 u.0 = NULL: BadRule
split 0 NULL null NULL: BadRule
entry 0 0: ok
split 0 u.4 = 5: BadRule
split 0 5 <> u.4: BadRule
split 0 u.4 < 5: BadRule
split 0 5 <= u.4: BadRule
split 0 u.4 null u.3: BadRule
split 0 u.4 some u.0: BadRule
split 0 u.4 null 5: BadRule
split 0 u.6 = 5: BadFact
split 0 u.1 <> ann: ok
split 0 u.4 null u.4: ok

The goal: fact 0 is an event of side One. On side Two fact 1 has its number, 2 its number and \
title, 3 its title, and 4 is the same.
assumed p.0 = 2;
goal 1 | a.0 = 5 | a.1 a.2;
view 1 | | a.0;
view 1 | | a.0 a.1;
view 1 | | a.1;
view 1 | | a.0 a.1 a.2
=>
goal 0 1 0: BadRule
goal 0 0 0: BadFact
goal 0 0 1: BadFact
view 0 0 0 0: ok
view 0 1 0 0: ok
view 0 2 0 0: ok
view 0 3 0 0: ok
goal 0 0: BadFact
goal 0 0 4 4: BadFact
goal 0 0 3: CondNotShown(0)
goal 0 0 1: HeadDiffers(0)
goal 0 0 2: HeadDiffers(1)
goal 0 0 4: ok
proof: 5";

#[test]
fn faults(rt: HostRuntime) {
    play_all(&rt, SCENES);
}
