//! Events, written as lines with their replies.
ghost use Rattle.ba_core.specs.Runs.{EventFits};

use super::Handle;
use super::given::{machine, policy, query, tables, user, values};
use ba_core::{Asked, Core, CoreReply, Event, Ground, run};
use ba_direct::cover;
use ba_model::{Duplicate, List};

fn number(rt: &impl Handle, word: &str) -> u32 {
    word.parse::<u32>().expect(rt, "a number")
}

fn word(line: &str, n: usize) -> &str {
    line.split(' ').nth(n).unwrap_or("")
}

/// A copy of the cover of the request's query. Without a request or a cover it is a refusal.
fn cover_of(rt: &impl Handle, core: &Core, k: u32, text: &str) -> Ground {
    let query = query(rt, core.policy(), text);
    let Some(asker) = core.request(k) else {
        return Ground::Refuse;
    };
    let found = cover(rt.alloc(), core.policy(), &asker.context, &query).expect(rt, "memory");
    match found {
        Some(cover) => Ground::Cover(cover.copy(rt.alloc()).expect(rt, "memory")),
        None => Ground::Refuse,
    }
}

/// `begin K USER VERSION`, `publish USERS`, `end K`, `cover K QUERY` or `refuse K QUERY`.
fn event_of(rt: &impl Handle, core: &Core, line: &str) -> Event
    ensures { EventFits core.now.policy result }
{
    let k = number(rt, word(line, 1));
    let rest = line.splitn(3, ' ').nth(2).unwrap_or("");
    match word(line, 0) {
        "begin" => {
            let context = user(rt, core.policy(), number(rt, word(line, 2)) as i64);
            Event::Begin(k, context, number(rt, word(line, 3)))
        }
        "publish" => {
            assert!(rt; core.policy().schema.rules.as_slice().is_empty(), "no rule");
            Event::Publish(tables(rt, core.policy(), rest))
        }
        "end" => Event::End(k),
        "cover" => Event::Ask(
            k,
            query(rt, core.policy(), rest),
            cover_of(rt, core, k, rest),
        ),
        _ => Event::Ask(k, query(rt, core.policy(), rest), Ground::Refuse),
    }
}

/// The reply in words.
fn text_of(rt: &impl Handle, reply: &CoreReply) -> String {
    let text = match reply {
        CoreReply::Number(n) => format!(in rt.alloc(); "number {n}"),
        CoreReply::Begun => format!(in rt.alloc(); "begun"),
        CoreReply::Asked(Asked::Blocked) => format!(in rt.alloc(); "blocked"),
        CoreReply::Asked(Asked::Answer(rows)) => {
            format!(in rt.alloc(); "rows{}", values(rt, rows).as_str())
        }
        CoreReply::Read(allowed) => format!(in rt.alloc(); "read {allowed}"),
        CoreReply::Ended => format!(in rt.alloc(); "ended"),
        CoreReply::Refused(fault) => format!(in rt.alloc(); "{fault:?}"),
    };
    text.expect(rt, "memory")
}

/// The first line whose reply isn't the one that is written behind it, or an empty text.
fn first_wrong<'a>(rt: &impl Handle, lines: &'a str) -> &'a str {
    let mut core = machine(rt, &policy(rt));
    for line in lines.lines() {
        let (written, wanted) = line.split_once(" => ").unwrap_or((line, ""));
        let event = event_of(rt, &core, written);
        let reply = core.apply(event).expect(rt, "memory");
        if text_of(rt, &reply).as_str() != wanted {
            return line;
        }
    }
    ""
}

/// A version that isn't there; a refusal of a covered query, and its cover; a refusal of one that isn't
/// covered. Then the first fault of an event that has two, and requests that aren't open. Then a request
/// that keeps the tables on which it was begun.
const RUNS: &str = "begin 0 2 1 => NoVersion
begin 0 2 0 => begun
refuse 0 SELECT Name FROM Users => Unfit
cover 0 SELECT Name FROM Users => rows ann bob
refuse 0 SELECT Title FROM Events WHERE EId = 5 => blocked

begin 0 2 0 => begun
begin 0 1 7 => Taken
end 1 => NoRequest
refuse 1 SELECT Name FROM Users => NoRequest
cover 0 SELECT EId FROM Attendances WHERE UId = 2 => rows 5
end 0 => ended
end 0 => NoRequest

begin 0 2 0 => begun
publish 0 1,ann 2,bob 3,cy => number 1
cover 0 SELECT Name FROM Users => rows ann bob
begin 1 1 1 => begun
cover 1 SELECT Name FROM Users => rows ann bob cy
cover 0 SELECT Name FROM Users => rows ann bob";

#[test]
fn events_one_by_one(rt: HostRuntime) {
    for lines in RUNS.split("\n\n") {
        let wrong = first_wrong(&rt, lines);
        assert!(rt; wrong.is_empty(), "{wrong}");
    }
}

/// Events that are taken in one run.
#[test]
fn run_of_three_events(rt: HostRuntime) {
    let core = machine(&rt, &policy(&rt));
    let begin = event_of(&rt, &core, "begin 0 2 0");
    let again = event_of(&rt, &core, "begin 0 2 0");
    let end = event_of(&rt, &core, "end 0");
    let events = vec![in rt.alloc(); begin, again, end].expect(&rt, "memory");
    let (core, replies) = run(rt.alloc(), core, List::from_vec(events)).expect(&rt, "memory");
    let mut text = String::new(rt.alloc());
    for reply in replies.as_slice() {
        let word = text_of(&rt, reply);
        text.push_str(word.as_str()).expect(&rt, "memory");
    }
    assert!(rt; text.as_str() == "begunTakenended", "the replies");
    assert!(rt; core.request(0).is_none(), "none is open");
}
