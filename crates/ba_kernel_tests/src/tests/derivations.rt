//! Derivations that close their goal, worked out by hand.

use super::searches::play_all;

const SCENES: &str = "The title of an event that the user is known to attend.
assumed p.0 = 2;
told 2 | a.0 = 2, a.1 = 5 | a.0 a.1 a.2 gives 2 5 100;
goal 1 | a.0 = 5 | a.1
=>
view 0 2 0 0 1: BadFact
entry 0 0: ok
view 0 2 0 0 1: ok
branch 0: One 1: u.0 u.1 u.2 @0, One 2: u.3 u.4 u.5 @1, Two 1: u.6 u.7 u.8 @2, Two 2: u.9 u.10 \
u.11 @2 | u.0 = 5, p.0 = 2, u.3 = 2, u.4 = 5, u.3 ~ 2, u.4 ~ 5, u.5 ~ 100, u.6 = u.10, u.9 = p.0, \
u.6 ~ u.0, u.7 ~ u.1, u.8 ~ u.2, u.11 ~ u.5 | u.1
goal 0 0 2: ok
branch 0: -
proof: 3

With a step less the branch is open.
assumed p.0 = 2;
told 2 | a.0 = 2, a.1 = 5 | a.0 a.1 a.2 gives 2 5 100;
goal 1 | a.0 = 5 | a.1
=>
entry 0 0: ok
view 0 2 0 0 1: ok

The same for any user, any event below 9 and any time.
variable;
variable;
assumed v.0 < 9;
told 2 | a.0 = p.0, a.1 = v.0 | a.0 a.1 a.2 gives p.0 v.0 v.1;
goal 1 | a.0 = v.0 | a.1
=>
split 0 v.2 = 5: BadRule
entry 0 0: ok
view 0 2 0 0 1: ok
branch 0: One 1: u.0 u.1 u.2 @0, One 2: u.3 u.4 u.5 @2, Two 1: u.6 u.7 u.8 @3, Two 2: u.9 u.10 \
u.11 @3 | u.0 = v.0, v.0 < 9, u.3 = p.0, u.4 = v.0, u.3 ~ p.0, u.4 ~ v.0, u.5 ~ v.1, u.6 = u.10, \
u.9 = p.0, u.6 ~ u.0, u.7 ~ u.1, u.8 ~ u.2, u.11 ~ u.5 | u.1
goal 0 0 2: ok
proof: 3

What is known of an event's title is known of each row with the event's key.
assumed p.0 = 2;
told 1 | a.0 = 5 | a.0 a.1 gives 5 party;
goal 1 | a.0 = 5 | a.1;
view 1 | a.1 = party | a.0
=>
view 0 0 0 0: CondNotShown(0)
entry 0 0: ok
view 0 0 0 1: ok
goal 0 0 2: HeadDiffers(0)
key 0 0 0 1: ok
goal 0 0 2: ok
proof: 4

By a rule each event that user 2 attends takes 30 minutes.
assumed p.0 = 2;
rule 2 | a.0 = 2 | a.1 within 1 | a.2 = 30 | a.0;
goal 1 2 | b.1 = a.0, b.0 = 2 | a.2;
view 2 | | a.1 a.0
=>
rule 0 0 0 1: ok
key 0 0 0 2: ok
view 0 0 0 1: ok
rule 0 0 0 3: ok
branch 0: One 1: u.0 u.1 u.2 @0, One 2: u.3 u.4 u.5 @0, One 1: u.6 u.7 u.8 @1, Two 2: u.9 u.10 \
u.11 @1, Two 1: u.12 u.13 u.14 @2 | u.4 = u.0, u.3 = 2, p.0 = 2, u.8 = 30, u.6 ~ u.4, u.0 ~ u.6, \
u.1 ~ u.7, u.2 ~ u.8, u.10 ~ u.4, u.9 ~ u.3, u.14 = 30, u.12 ~ u.10 | u.2
goal 0 0 4 3: ok
proof: 5

Notes without an owner are shown by one view, and those with an owner by another.
assumed p.0 = 2;
goal 3 | | a.0;
view 3 | a.1 null a.1 | a.0 a.2;
view 3 | a.1 some a.1 | a.0 a.1
=>
view 0 0 0 0: CondNotShown(0)
view 0 1 0 0: CondNotShown(0)
split 0 u.1 null u.1: ok
view 0 1 0 0: CondNotShown(0)
view 0 0 0 0: ok
goal 0 0 1: ok
view 1 0 0 0: CondNotShown(0)
view 1 1 0 0: ok
goal 1 0 1: ok
proof: 5";

#[test]
fn derivations(rt: HostRuntime) {
    play_all(&rt, SCENES);
}
