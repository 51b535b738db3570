//! Matches of templates with questions after what was told, worked out by hand.
//!
//! A scene is its title, a proof, `=>` and lines. A line is what is asked, `=>` and its match: the
//! variables' values, `at` and the entries' places, each an entry of the trace and one of its rows.

use super::asked::asked_from;
use super::policies::policy;
use super::templates::template;
use super::words::{Handle, values};
use ba_match::match_template;
use ba_model::Same;
use ba_template::{Match, Template};

fn is_match(rt: &impl Handle, found: &Match, wanted: &str) -> bool {
    let (words, places) = wanted.split_once("at ").unwrap_or((wanted, ""));
    let found_places = found.places.as_slice();
    let text = format!(in rt.alloc(); "{found_places:?}").expect(rt, "memory");
    found.values.same(&values(rt, words)) && text.as_str() == places
}

fn is_so(rt: &impl Handle, template: &Template, line: &str) -> bool {
    let (given, wanted) = line.split_once(" => ").unwrap_or((line, ""));
    let asked = asked_from(rt, given);
    let policy = policy(rt, given);
    let found = match_template(
        rt.alloc(),
        template,
        &policy,
        &asked.ctx,
        &asked.trace,
        &asked.question,
    );
    match found.expect(rt, "memory") {
        Some(found) => is_match(rt, &found, wanted),
        None => wanted == "none",
    }
}

fn play(rt: &impl Handle, scene: &str) {
    let (title, scene) = scene.split_once('\n').unwrap_or((scene, ""));
    let (proof, lines) = scene.split_once("\n=>\n").unwrap_or((scene, ""));
    let template = template(rt, proof);
    for line in lines.lines() {
        assert!(rt; is_so(rt, &template, line), "{title} {line}");
    }
}

const SCENES: &str =
    "What was told matches; or nothing was told, another's attendance, or that at another event.
variable; variable; variable; variable; variable; variable;
told 2 | a.0 = v.1, a.1 = v.2 | a.0 a.1 a.2 gives v.3 v.4 v.5; assumed v.0 = v.2, v.1 = p.0;
goal 1 | a.0 = v.0 | a.1
by entry 0 0, view 0 2 0 0 1, goal 0 0 2
=>
context 1; told 2 | a.0 = 1, a.1 = 6 | a.0 a.1 a.2 gives 1 6 200; \
asks 1 | a.0 = 6 | a.1 => 6 1 6 1 6 200 at [(0, 0)]
context 1; asks 1 | a.0 = 6 | a.1 => none
context 2; told 2 | a.0 = 1, a.1 = 6 | a.0 a.1 a.2 gives 1 6 200; asks 1 | a.0 = 6 | a.1 => none
context 1; told 2 | a.0 = 1, a.1 = 5 | a.0 a.1 a.2 gives 1 5 100; asks 1 | a.0 = 6 | a.1 => none
context 1; told 2 | a.0 = 1, a.1 = 5 | a.0 a.1 a.2 gives 1 5 100; \
told 2 | a.0 = 1, a.1 = 6 | a.0 a.1 a.2 gives 1 6 200; asks 1 | a.0 = 6 | a.1 => 6 1 6 1 6 200 at [(1, 0)]

Another table, another head, another literal's place, no atom, two parts, and no part.
variable; variable; variable; variable; variable; variable;
told 2 | a.0 = v.1, a.1 = v.2 | a.0 a.1 a.2 gives v.3 v.4 v.5; assumed v.0 = v.2, v.1 = p.0;
goal 1 | a.0 = v.0 | a.1
by entry 0 0, view 0 2 0 0 1, goal 0 0 2
=>
context 1; told 2 | a.0 = 1, a.1 = 6 | a.0 a.1 a.2 gives 1 6 200; asks 2 | a.0 = 6 | a.1 => none
context 1; told 2 | a.0 = 1, a.1 = 6 | a.0 a.1 a.2 gives 1 6 200; asks 1 | a.0 = 6 | a.2 => none
context 1; told 2 | a.0 = 1, a.1 = 6 | a.0 a.1 a.2 gives 1 6 200; asks 1 | a.2 = 6 | a.1 => none
context 1; told 2 | a.0 = 1, a.1 = 6 | a.0 a.1 a.2 gives 1 6 200; asks 1 | | a.1 => none
context 1; told 2 | a.0 = 1, a.1 = 6 | a.0 a.1 a.2 gives 1 6 200; \
asks 1 | a.0 = 6 | a.1 union 1 | a.0 = 6 | a.1 => none
context 1; told 2 | a.0 = 1, a.1 = 6 | a.0 a.1 a.2 gives 1 6 200 => none

The entry's query with no row, another query, and a row that is too narrow.
variable; variable; variable; variable; variable; variable;
told 2 | a.0 = v.1, a.1 = v.2 | a.0 a.1 a.2 gives v.3 v.4 v.5; assumed v.0 = v.2, v.1 = p.0;
goal 1 | a.0 = v.0 | a.1
by entry 0 0, view 0 2 0 0 1, goal 0 0 2
=>
context 1; told 2 | a.0 = 1, a.1 = 6 | a.0 a.1 a.2 gives; asks 1 | a.0 = 6 | a.1 => none
context 1; told 2 | a.0 = 1 | a.0 a.1 a.2 gives 1 6 200; asks 1 | a.0 = 6 | a.1 => none
context 1; told 2 | a.0 = 1, a.1 = 6 | a.0 a.1 a.2 gives 1 6; asks 1 | a.0 = 6 | a.1 => none

A variable is of its kind, and NULL is of none.
variable; goal 0 | a.0 = v.0 | a.1
by view 0 0 0 0, goal 0 0 1
=>
asks 0 | a.0 = 5 | a.1 => 5 at []
asks 0 | a.0 = p.0 | a.1 => none
asks 0 | a.0 = party | a.1 => none
asks 0 | a.0 = NULL | a.1 => none

A literal that is no variable stays.
goal 0 | a.0 = 5 | a.1
by view 0 0 0 0, goal 0 0 1
=>
asks 0 | a.0 = 5 | a.1 => at []
asks 0 | a.0 = 6 | a.1 => none

One variable has one value in two places of the question.
variable; goal 0 | a.0 = v.0, a.0 < v.0 | a.1
by view 0 0 0 0, goal 0 0 1
=>
asks 0 | a.0 = 5, a.0 < 5 | a.1 => 5 at []
asks 0 | a.0 = 5, a.0 < 6 | a.1 => none

One variable has one value in a row and the question.
variable; told 0 | | a.0 gives v.0; goal 0 | a.0 = v.0 | a.1
by view 0 0 0 0, goal 0 0 1
=>
told 0 | | a.0 gives 5, 6; asks 0 | a.0 = 6 | a.1 => 6 at [(0, 1)]
told 0 | | a.0 gives 5, 6; asks 0 | a.0 = 7 | a.1 => none

The row has a parameter, and stands with its query in one entry of the trace.
variable; told 0 | a.0 = v.0 | a.0 gives p.0; goal 0 | a.0 = v.0 | a.1
by view 0 0 0 0, goal 0 0 1
=>
context 7; told 0 | a.0 = 5 | a.0 gives 5; told 0 | a.0 = 6 | a.0 gives 7; \
asks 0 | a.0 = 6 | a.1 => 6 at [(1, 0)]
context 7; told 0 | a.0 = 5 | a.0 gives 5; told 0 | a.0 = 6 | a.0 gives 7; \
asks 0 | a.0 = 5 | a.1 => none
context 8; told 0 | a.0 = 5 | a.0 gives 5; told 0 | a.0 = 6 | a.0 gives 7; \
asks 0 | a.0 = 6 | a.1 => none

The first row.
variable; told 0 | | a.0 gives v.0; goal 0 | | a.1
by view 0 0 0 0, goal 0 0 1
=>
told 0 | | a.0 gives 5, 6; told 0 | | a.0 gives 7; asks 0 | | a.1 => 5 at [(0, 0)]

The first row that meets the condition.
variable; told 0 | | a.0 gives v.0; assumed 5 < v.0; goal 0 | | a.1
by view 0 0 0 0, goal 0 0 1
=>
told 0 | | a.0 gives 5, 6, 8; told 0 | | a.0 gives 7; asks 0 | | a.1 => 6 at [(0, 1)]
told 0 | | a.0 gives 5; told 0 | | a.0 gives 7; asks 0 | | a.1 => 7 at [(1, 0)]
told 0 | | a.0 gives 5; asks 0 | | a.1 => none

Of two entries the first one's place first.
variable; variable; told 0 | | a.0 gives v.0; told 0 | | a.0 gives v.1; assumed v.1 < v.0; goal 0 | | a.1
by view 0 0 0 0, goal 0 0 1
=>
told 0 | | a.0 gives 5, 7; told 0 | | a.0 gives 6; asks 0 | | a.1 => 7 5 at [(0, 1), (0, 0)]
told 0 | | a.0 gives 5; told 0 | | a.0 gives 7, 6; asks 0 | | a.1 => 7 5 at [(1, 0), (0, 0)]
told 0 | | a.0 gives 5; told 0 | | a.0 gives 5; asks 0 | | a.1 => none

The template's policy, made anew, and one with another view.
variable; goal 0 | a.0 = v.0 | a.1
by view 0 0 0 0, goal 0 0 1
=>
asks 0 | a.0 = 5 | a.1 => 5 at []
view 0 | | a.0 a.1; view 0 | | a.0; asks 0 | a.0 = 5 | a.1 => none";

#[test]
fn matches(rt: HostRuntime) {
    for scene in SCENES.split("\n\n") {
        play(&rt, scene);
    }
}
