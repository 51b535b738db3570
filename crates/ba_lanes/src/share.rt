//! Which lines each lane carries, and what they take.
ghost use Rattle.std.specs.Prelude.{◌≡◌, ◌+◌, ◌*◌, ◌<◌, ◌≤◌, All, length, cond};
ghost use Rattle.ba_input.specs.Inputs.{IsInput};
ghost use Rattle.ba_model.specs.Limits.{most_asks, most_lines};
ghost use Rattle.ba_lanes.specs.Legal.{contexts_of, lane_of};
ghost use Rattle.ba_lanes.specs.Lanes.{lines_of};
ghost use Rattle.ba_lanes.specs.Serving.{IsShare, calls_versions, questions_of, shelf_calls, version_calls};

use ba_input::Input;
use ba_script::{Script, ScriptEntry};

/// How many lines a lane carries, and how many calls they may make on the versions and on a shelf.
#[derive(Clone, Copy, Debug)]
pub(crate) struct Share {
    pub(crate) lines: usize,
    pub(crate) calls: u32,
    pub(crate) looks: u32,
}

/// The lane that carries a line: requests go round the lanes by their numbers, and so do publish
/// lines.
pub(crate) fn lane_of(workers: u32, said: &ScriptEntry) -> u32
    requires { 0 < workers }
    ensures { result ≡ lane_of workers said.now }
{
    let number = match said {
        ScriptEntry::Begin { request, .. }
        | ScriptEntry::Ask { request, .. }
        | ScriptEntry::Read { request, .. }
        | ScriptEntry::End { request, .. } => *request,
        ScriptEntry::Publish { number, .. } => *number,
    };
    number % workers
}

#[tactic(auto, unfolding(crate::specs::Serving::calls_versions))]
fn calls_versions(said: &ScriptEntry) -> bool
    ensures { result ≡ calls_versions said.now }
{
    match said {
        ScriptEntry::Begin { .. } | ScriptEntry::Publish { .. } => true,
        ScriptEntry::Ask { .. } | ScriptEntry::Read { .. } | ScriptEntry::End { .. } => false,
    }
}

/// How many queries the line judges at most.
#[tactic(auto, unfolding(crate::specs::Serving::questions_of))]
fn questions_of(said: &ScriptEntry) -> u32
    ensures { result ≡ questions_of said.now }
{
    match said {
        ScriptEntry::Ask { .. } => 1,
        ScriptEntry::Read { questions, .. } => *questions,
        ScriptEntry::Begin { .. } | ScriptEntry::End { .. } | ScriptEntry::Publish { .. } => 0,
    }
}

impl Share {
    /// One line more: each of its queries may look and admit.
    fn add(&mut self, said: &ScriptEntry)
        requires lines { self.old.lines < most_lines }
        requires few { questions_of said.now ≤ most_asks }
        requires calls { (self.old.calls ≤ self.old.lines)
            × (self.old.looks ≤ 2 * most_asks * self.old.lines) }
        ensures lines { self.new.lines ≡ self.old.lines + 1 }
        ensures calls { self.new.calls ≡ self.old.calls + cond (calls_versions said.now) 1 0 }
        ensures looks { self.new.looks ≡ self.old.looks + 2 * questions_of said.now }
    {
        self.lines += 1;
        if calls_versions(said) {
            self.calls += 1;
        }
        self.looks += 2 * questions_of(said);
    }

    /// What the lane of that number takes, of so many.
    pub(crate) fn of(script: &Script, workers: u32, number: u32) -> Share
        requires some { 0 < workers }
        requires few { length script.now.entries ≤ most_lines }
        requires asks { All (λ said. questions_of said ≤ most_asks) script.now.entries }
        ensures { IsShare (lines_of (lane_of workers) number script.now.entries) result }
    {
        let mut share = Share {
            lines: 0,
            calls: 0,
            looks: 0,
        };
        for said in script.entries.as_slice() {
            if lane_of(workers, said) == number {
                share.add(said);
            }
        }
        share
    }

    /// What all lines take.
    pub(crate) fn whole(script: &Script) -> Share
        requires few { length script.now.entries ≤ most_lines }
        requires asks { All (λ said. questions_of said ≤ most_asks) script.now.entries }
        ensures { IsShare script.now.entries result }
    {
        let mut share = Share {
            lines: 0,
            calls: 0,
            looks: 0,
        };
        for said in script.entries.as_slice() {
            share.add(said);
        }
        share
    }

    /// What a run takes: what all lines take, and on each shelf as many admits as templates are
    /// loaded.
    pub(crate) fn of_run(input: &Input) -> Share
        requires input { IsInput input.now }
        ensures calls { result.calls ≡ version_calls input.now.script.entries }
        ensures looks { result.looks
            ≡ shelf_calls input.now.script.entries + length input.now.loaded }
    {
        let mut share = Share::whole(&input.script);
        share.looks += input.loaded.len() as u32;
        share
    }
}

/// How many requests begin.
pub(crate) fn requests_in(script: &Script) -> usize
    requires few { length script.now.entries ≤ most_lines }
    ensures { result ≡ length (contexts_of script.now.entries) }
{
    let mut count = 0;
    for said in script.entries.as_slice() {
        if let ScriptEntry::Begin { .. } = said {
            count += 1;
        }
    }
    count
}
