//! A cache: calls of three threads.
ghost use Rattle.std.specs.Prelude.{ℕ, ◌+◌, IfOk, OnOk};
ghost use Rattle.std.specs.Thread.{IsSync};
ghost use Rattle.ba_cache.specs.Passes.{AreFree, IsOpened, IsWhole, OnEach};
ghost use Rattle.ba_base_tests.specs.Callers.{Awaits, HasLeft};

use super::plain::{Plain, Told};
use super::templates::template;
use ba_cache::{Admit, Cache, CachePass, Found, Shelf, ShelfCall};
use std::alloc::{AllocError, Global};
use std::fmt::Write;
use std::sync::Wait;
use std::test::Fail;
use std::thread;
use std::thread::Threads;

type Closed = Vec<(Shelf, Vec<u32>)>;

/// A pass that comes back from a thread, and the calls that the thread noted.
type Worked = (CachePass, Result<Vec<Told>, AllocError>);

// ---- calls, as a thread notes them

fn admit_text(alloc: Global, answer: Result<Admit, AllocError>) -> Result<String, AllocError> {
    let mut text = String::new(alloc);
    match answer {
        Ok(Admit::Added(id)) => write!(text, "added {id}")?,
        Ok(Admit::Known(id)) => write!(text, "known {id}")?,
        Err(_) => text.push_str("refused")?,
    }
    Ok(text)
}

fn look_text(alloc: Global, answer: Result<Found, AllocError>) -> Result<String, AllocError> {
    let mut text = String::new(alloc);
    let Ok(found) = answer else {
        text.push_str("refused")?;
        return Ok(text);
    };
    text.push_str("found")?;
    for kept in found.templates.as_slice() {
        write!(text, " {}", kept.id)?;
    }
    Ok(text)
}

/// Admits the template of that width and number.
fn admit<R: Wait>(
    rt: &R,
    alloc: Global,
    cache: &Cache,
    pass: &mut CachePass,
    of: (u32, i64),
) -> Result<Told, AllocError>
    requires free { AreFree cache.now pass.old }
    requires left { OnEach (HasLeft 1) pass.old }
    ensures free { AreFree cache.now pass.new }
    ensures left { OnOk result ((n : ℕ) → OnEach (HasLeft (n + 1)) pass.old → OnEach (HasLeft n) pass.new) }
{
    let (width, number) = of;
    let it = template(alloc, width, number)?;
    let shard = it.shape().shard();
    let answer = cache.admit(rt, pass, it);
    Ok(Told {
        shard,
        width,
        number: Some(number),
        answer: admit_text(alloc, answer)?,
    })
}

/// Looks at the shape of that width.
fn look<R: Wait>(
    rt: &R,
    alloc: Global,
    cache: &Cache,
    pass: &mut CachePass,
    width: u32,
) -> Result<Told, AllocError>
    requires free { AreFree cache.now pass.old }
    requires left { OnEach (HasLeft 1) pass.old }
    ensures free { AreFree cache.now pass.new }
    ensures left { OnOk result ((n : ℕ) → OnEach (HasLeft (n + 1)) pass.old → OnEach (HasLeft n) pass.new) }
{
    let of = template(alloc, width, 1)?;
    let shard = of.shape().shard();
    let answer = cache.look(rt, pass, of.shape());
    Ok(Told {
        shard,
        width,
        number: None,
        answer: look_text(alloc, answer)?,
    })
}

/// A template of a width that only this thread has, a look at all of that width, and a template that each thread has.
fn three_calls<R: Wait>(
    rt: &R,
    alloc: Global,
    cache: &Cache,
    pass: &mut CachePass,
    numbers: (i64, i64),
    told: &mut Vec<Told>,
) -> Result<(), AllocError>
    requires free { AreFree cache.now pass.old }
    requires left { OnEach (HasLeft 3) pass.old }
    ensures free { AreFree cache.now pass.new }
    ensures left { OnOk result ((n : ℕ) → OnEach (HasLeft (n + 3)) pass.old → OnEach (HasLeft n) pass.new) }
{
    let (own, common) = numbers;
    let call = admit(rt, alloc, cache, pass, (1, own))?;
    told.push(call)?;
    let call = look(rt, alloc, cache, pass, 1)?;
    told.push(call)?;
    let call = admit(rt, alloc, cache, pass, (2, common))?;
    told.push(call)?;
    Ok(())
}

fn calls<R: Wait>(
    rt: &R,
    alloc: Global,
    cache: &Cache,
    pass: &mut CachePass,
    first: i64,
) -> Result<Vec<Told>, AllocError>
    requires free { AreFree cache.now pass.old }
    requires left { OnEach (HasLeft 12) pass.old }
    ensures free { AreFree cache.now pass.new }
{
    let mut told = Vec::new(alloc);
    for turn in 0..4u32 {
        let common = turn as i64 + 1;
        let own = first.wrapping_add(common);
        three_calls(rt, alloc, cache, pass, (own, common), &mut told)?;
    }
    Ok(told)
}

/// The calls of a thread. The pass comes back.
fn work<R: Wait>(rt: &R, alloc: Global, cache: &Cache, mut pass: CachePass, first: i64) -> Worked
    requires free { AreFree cache.now pass }
    requires left { OnEach (HasLeft 12) pass }
    ensures free { AreFree cache.now result.0 }
{
    let told = calls(rt, alloc, cache, &mut pass, first);
    (pass, told)
}

/// The calls of two threads.
fn work_two<R: Threads + Wait + Sync>(
    rt: &R,
    alloc: Global,
    cache: &Cache,
    one: CachePass,
    two: CachePass,
) -> (Worked, Worked)
    requires free { AreFree cache.now one × AreFree cache.now two }
    requires left { OnEach (HasLeft 12) one × OnEach (HasLeft 12) two }
    ensures free { AreFree cache.now result.0.0 × AreFree cache.now result.1.0 }
{
    thread::join(
        rt,
        || work(rt, alloc, cache, one, 20),
        || work(rt, alloc, cache, two, 30),
    )
}

// ---- three threads

fn split_three(
    alloc: Global,
    cache: &Cache,
    first: &mut CachePass,
) -> Result<(CachePass, CachePass, CachePass), AllocError>
    requires free { AreFree cache.now first.old }
    requires opened { OnEach (IsOpened 36) first.old }
    ensures free { AreFree cache.now first.new }
    ensures new { IfOk result (λ r. AreFree cache.now r.0 × AreFree cache.now r.1 × AreFree cache.now r.2) }
    ensures left { IfOk result (λ r. OnEach (HasLeft 12) r.0 × OnEach (HasLeft 12) r.1 × OnEach (HasLeft 12) r.2) }
    ensures awaits { OnOk result (OnEach (Awaits 3) first.new) }
{
    let one = cache.split(alloc, first, 12)?;
    let two = cache.split(alloc, first, 12)?;
    let three = cache.split(alloc, first, 12)?;
    Ok((one, two, three))
}

fn join_three(cache: &Cache, first: &mut CachePass, others: (CachePass, CachePass, CachePass))
    requires free { AreFree cache.now first.old }
    requires others { AreFree cache.now others.0 × AreFree cache.now others.1 × AreFree cache.now others.2 }
    requires awaits { OnEach (Awaits 3) first.old }
    ensures free { AreFree cache.now first.new }
    ensures whole { OnEach IsWhole first.new }
{
    let (one, two, three) = others;
    cache.join(first, one);
    cache.join(first, two);
    cache.join(first, three);
}

/// The shelves after the calls of three threads, and what each of these noted, by the numbers of their passes.
fn run<R: Threads + Wait + Sync>(
    rt: &R,
    alloc: Global,
) -> Result<(Closed, Vec<Vec<Told>>), AllocError> {
    let (cache, mut first) = Cache::new(alloc, 36)?;
    let (one, two, three) = split_three(alloc, &cache, &mut first)?;
    let shared = &cache;
    let ((one, a), ((two, b), (three, c))) = thread::join(
        rt,
        || work(rt, alloc, shared, one, 10),
        || -> (Worked, Worked)
            requires { IsSync R.row × AreFree shared.now two × AreFree shared.now three × OnEach (HasLeft 12) two × OnEach (HasLeft 12) three }
        { work_two(rt, alloc, shared, two, three) },
    );
    join_three(&cache, &mut first, (one, two, three));
    let closed = cache.close(alloc, first)?;
    let mut told = Vec::new(alloc);
    told.push(Vec::new(alloc))?;
    told.push(a?)?;
    told.push(b?)?;
    told.push(c?)?;
    Ok((closed, told))
}

// ---- histories

/// Whether the entry is one of this call.
fn is_entry_of(alloc: Global, entry: &ShelfCall, call: &Told) -> Result<bool, AllocError> {
    match entry {
        ShelfCall::Look(..) => Ok(call.number.is_none()),
        ShelfCall::Admit(_, answer) => {
            let text = admit_text(alloc, Ok(*answer))?;
            Ok(text.as_str() == call.answer.as_str())
        }
        ShelfCall::Refused => Ok(false),
    }
}

/// The first call of this shard, which is taken out.
fn next_call(told: &mut Vec<Told>, shard: u32) -> Option<Told> {
    let place = told.iter().position(|call| call.shard == shard)?;
    Some(told.remove(place))
}

/// Whether plain lists answer the calls of the threads as the shelf did, in the order of its history.
fn agrees(
    alloc: Global,
    shard: u32,
    (shelf, numbers): &(Shelf, Vec<u32>),
    told: &mut Vec<Vec<Told>>,
) -> Result<bool, AllocError> {
    let mut plain = Plain::new(alloc);
    for (entry, number) in shelf.calls().iter().zip(numbers) {
        let Some(call) = told
            .get_mut(*number as usize)
            .and_then(|mine| next_call(mine, shard))
        else {
            return Ok(false);
        };
        let answer = plain.reply(&call)?;
        if answer.as_str() != call.answer.as_str() || !is_entry_of(alloc, entry, &call)? {
            return Ok(false);
        }
    }
    Ok(shelf.calls().len() == numbers.len())
}

/// How many calls each shelf has, and `-` where plain lists disagree or a call is in no history.
fn summary(
    alloc: Global,
    closed: &[(Shelf, Vec<u32>)],
    told: &mut Vec<Vec<Told>>,
) -> Result<String, AllocError> {
    let mut text = String::new(alloc);
    let mut shard = 0;
    for shelf in closed {
        if agrees(alloc, shard, shelf, told)? {
            write!(text, "{} ", shelf.1.len())?;
        } else {
            text.push_str("- ")?;
        }
        shard = shard.wrapping_add(1);
    }
    for rest in told.as_slice() {
        if !rest.is_empty() {
            text.push_str("-")?;
        }
    }
    Ok(text)
}

#[test]
fn three_threads(rt: HostRuntime) -> Result<(), Fail> {
    let alloc = rt.alloc();
    let (closed, mut told) = run(&rt, alloc)?;
    let text = summary(alloc, &closed, &mut told)?;
    assert_eq!(rt; text.as_str(), "0 0 0 24 12 0 0 0 ");
    Ok(())
}
