//! What printed lines have.
ghost use Rattle.std.specs.Prelude.{◌≡◌, option_copied};
ghost use Rattle.ba_audit.specs.Lines.{asked_over, asker_in, begin_in, begun_over, end_in, is_answer, is_block, is_memory, is_unaudited, is_untested, key_in, number_in, published_as, reader_in, rows_in, set_in, unread_in};

use ba_model::{List, Row, Str};
use ba_printed::{PrintedBlock, PrintedLine};
use ba_sql_query::ReadQueryFault;

/// The name of the request that it begins.
#[tactic(auto, unfolding(crate::specs::Lines::begin_in))]
pub(crate) fn begin_in(line: &PrintedLine) -> Option<&Str>
    ensures { option_copied result ≡ begin_in line.now }
{
    match line {
        PrintedLine::Begin { begin, .. } => Some(begin),
        PrintedLine::End { .. }
        | PrintedLine::Publish { .. }
        | PrintedLine::Answer { .. }
        | PrintedLine::Block { .. }
        | PrintedLine::Read { .. }
        | PrintedLine::ReadBlock { .. }
        | PrintedLine::UnevenRead
        | PrintedLine::Unread { .. }
        | PrintedLine::Memory { .. }
        | PrintedLine::Summary(_) => None,
    }
}

/// The name of the request that asked.
#[tactic(auto, unfolding(crate::specs::Lines::asker_in))]
pub(crate) fn asker_in(line: &PrintedLine) -> Option<&Str>
    ensures { option_copied result ≡ asker_in line.now }
{
    match line {
        PrintedLine::Answer { request, .. } => Some(request),
        PrintedLine::Block { request, .. } => Some(request),
        PrintedLine::Unread { request, .. } => Some(request),
        PrintedLine::Begin { .. }
        | PrintedLine::End { .. }
        | PrintedLine::Publish { .. }
        | PrintedLine::Read { .. }
        | PrintedLine::ReadBlock { .. }
        | PrintedLine::UnevenRead
        | PrintedLine::Memory { .. }
        | PrintedLine::Summary(_) => None,
    }
}

/// The name of the request that read a cache key.
#[tactic(auto, unfolding(crate::specs::Lines::reader_in))]
pub(crate) fn reader_in(line: &PrintedLine) -> Option<&Str>
    ensures { option_copied result ≡ reader_in line.now }
{
    match line {
        PrintedLine::Read { read, .. } => Some(read),
        PrintedLine::ReadBlock { read, .. } => Some(read),
        PrintedLine::Begin { .. }
        | PrintedLine::End { .. }
        | PrintedLine::Publish { .. }
        | PrintedLine::Answer { .. }
        | PrintedLine::Block { .. }
        | PrintedLine::UnevenRead
        | PrintedLine::Unread { .. }
        | PrintedLine::Memory { .. }
        | PrintedLine::Summary(_) => None,
    }
}

/// The name of the key that it read.
#[tactic(auto, unfolding(crate::specs::Lines::key_in))]
pub(crate) fn key_in(line: &PrintedLine) -> Option<&Str>
    ensures { option_copied result ≡ key_in line.now }
{
    match line {
        PrintedLine::Read { key, .. } => Some(key),
        PrintedLine::ReadBlock { key, .. } => Some(key),
        PrintedLine::Begin { .. }
        | PrintedLine::End { .. }
        | PrintedLine::Publish { .. }
        | PrintedLine::Answer { .. }
        | PrintedLine::Block { .. }
        | PrintedLine::UnevenRead
        | PrintedLine::Unread { .. }
        | PrintedLine::Memory { .. }
        | PrintedLine::Summary(_) => None,
    }
}

/// The name of the request that it ends.
#[tactic(auto, unfolding(crate::specs::Lines::end_in))]
pub(crate) fn end_in(line: &PrintedLine) -> Option<&Str>
    ensures { option_copied result ≡ end_in line.now }
{
    match line {
        PrintedLine::End { end, .. } => Some(end),
        PrintedLine::Begin { .. }
        | PrintedLine::Publish { .. }
        | PrintedLine::Answer { .. }
        | PrintedLine::Block { .. }
        | PrintedLine::Read { .. }
        | PrintedLine::ReadBlock { .. }
        | PrintedLine::UnevenRead
        | PrintedLine::Unread { .. }
        | PrintedLine::Memory { .. }
        | PrintedLine::Summary(_) => None,
    }
}

/// The name of the table set that it publishes.
#[tactic(auto, unfolding(crate::specs::Lines::set_in))]
pub(crate) fn set_in(line: &PrintedLine) -> Option<&Str>
    ensures { option_copied result ≡ set_in line.now }
{
    match line {
        PrintedLine::Publish { publish, .. } => Some(publish),
        PrintedLine::Begin { .. }
        | PrintedLine::End { .. }
        | PrintedLine::Answer { .. }
        | PrintedLine::Block { .. }
        | PrintedLine::Read { .. }
        | PrintedLine::ReadBlock { .. }
        | PrintedLine::UnevenRead
        | PrintedLine::Unread { .. }
        | PrintedLine::Memory { .. }
        | PrintedLine::Summary(_) => None,
    }
}

/// The version that a request begins over.
#[tactic(auto, unfolding(crate::specs::Lines::begun_over))]
pub(crate) fn begun_over(line: &PrintedLine) -> Option<u64>
    ensures { result ≡ begun_over line.now }
{
    match line {
        PrintedLine::Begin { version, .. } => Some(*version),
        PrintedLine::End { .. }
        | PrintedLine::Publish { .. }
        | PrintedLine::Answer { .. }
        | PrintedLine::Block { .. }
        | PrintedLine::Read { .. }
        | PrintedLine::ReadBlock { .. }
        | PrintedLine::UnevenRead
        | PrintedLine::Unread { .. }
        | PrintedLine::Memory { .. }
        | PrintedLine::Summary(_) => None,
    }
}

/// The version that a table set is published as.
#[tactic(auto, unfolding(crate::specs::Lines::published_as))]
pub(crate) fn published_as(line: &PrintedLine) -> Option<u64>
    ensures { result ≡ published_as line.now }
{
    match line {
        PrintedLine::Publish { version, .. } => Some(*version),
        PrintedLine::Begin { .. }
        | PrintedLine::End { .. }
        | PrintedLine::Answer { .. }
        | PrintedLine::Block { .. }
        | PrintedLine::Read { .. }
        | PrintedLine::ReadBlock { .. }
        | PrintedLine::UnevenRead
        | PrintedLine::Unread { .. }
        | PrintedLine::Memory { .. }
        | PrintedLine::Summary(_) => None,
    }
}

/// The version that a question was asked over, or a key read.
#[tactic(auto, unfolding(crate::specs::Lines::asked_over))]
pub(crate) fn asked_over(line: &PrintedLine) -> Option<u64>
    ensures { result ≡ asked_over line.now }
{
    match line {
        PrintedLine::Answer { version, .. } => Some(*version),
        PrintedLine::Block { version, .. } => Some(*version),
        PrintedLine::Unread { version, .. } => Some(*version),
        PrintedLine::Read { version, .. } => Some(*version),
        PrintedLine::ReadBlock { version, .. } => Some(*version),
        PrintedLine::Begin { .. }
        | PrintedLine::End { .. }
        | PrintedLine::Publish { .. }
        | PrintedLine::UnevenRead
        | PrintedLine::Memory { .. }
        | PrintedLine::Summary(_) => None,
    }
}

/// The fault that a question's text is said to have.
#[tactic(auto, unfolding(crate::specs::Lines::unread_in))]
pub(crate) fn unread_in(line: &PrintedLine) -> Option<&ReadQueryFault>
    ensures { option_copied result ≡ unread_in line.now }
{
    match line {
        PrintedLine::Unread { unread, .. } => Some(unread),
        PrintedLine::Begin { .. }
        | PrintedLine::End { .. }
        | PrintedLine::Publish { .. }
        | PrintedLine::Answer { .. }
        | PrintedLine::Block { .. }
        | PrintedLine::Read { .. }
        | PrintedLine::ReadBlock { .. }
        | PrintedLine::UnevenRead
        | PrintedLine::Memory { .. }
        | PrintedLine::Summary(_) => None,
    }
}

/// The rows of an answer.
#[tactic(auto, unfolding(crate::specs::Lines::rows_in))]
pub(crate) fn rows_in(line: &PrintedLine) -> Option<&List<Row>>
    ensures { option_copied result ≡ rows_in line.now }
{
    match line {
        PrintedLine::Answer { rows, .. } => Some(rows),
        PrintedLine::Begin { .. }
        | PrintedLine::End { .. }
        | PrintedLine::Publish { .. }
        | PrintedLine::Block { .. }
        | PrintedLine::Read { .. }
        | PrintedLine::ReadBlock { .. }
        | PrintedLine::UnevenRead
        | PrintedLine::Unread { .. }
        | PrintedLine::Memory { .. }
        | PrintedLine::Summary(_) => None,
    }
}

/// The number of the script's line.
#[tactic(auto, unfolding(crate::specs::Lines::number_in))]
pub(crate) fn number_in(line: &PrintedLine) -> Option<u64>
    ensures { result ≡ number_in line.now }
{
    match line {
        PrintedLine::Begin { line, .. } => Some(*line),
        PrintedLine::End { line, .. } => Some(*line),
        PrintedLine::Publish { line, .. } => Some(*line),
        PrintedLine::Answer { line, .. } => Some(*line),
        PrintedLine::Block { line, .. } => Some(*line),
        PrintedLine::Unread { line, .. } => Some(*line),
        PrintedLine::Read { line, .. } => Some(*line),
        PrintedLine::ReadBlock { line, .. } => Some(*line),
        PrintedLine::Memory { line } => Some(*line),
        PrintedLine::UnevenRead | PrintedLine::Summary(_) => None,
    }
}

/// Whether it says that there was no memory.
#[tactic(auto, unfolding(crate::specs::Lines::is_memory))]
pub(crate) fn is_memory(line: &PrintedLine) -> bool
    ensures { result ≡ is_memory line.now }
{
    match line {
        PrintedLine::Memory { .. } => true,
        PrintedLine::Begin { .. }
        | PrintedLine::End { .. }
        | PrintedLine::Publish { .. }
        | PrintedLine::Answer { .. }
        | PrintedLine::Block { .. }
        | PrintedLine::Read { .. }
        | PrintedLine::ReadBlock { .. }
        | PrintedLine::UnevenRead
        | PrintedLine::Unread { .. }
        | PrintedLine::Summary(_) => false,
    }
}

/// Whether it answers a question, or lets a read through.
#[tactic(auto, unfolding(crate::specs::Lines::is_answer))]
pub(crate) fn is_answer(line: &PrintedLine) -> bool
    ensures { result ≡ is_answer line.now }
{
    match line {
        PrintedLine::Answer { .. } | PrintedLine::Read { .. } => true,
        PrintedLine::Begin { .. }
        | PrintedLine::End { .. }
        | PrintedLine::Publish { .. }
        | PrintedLine::Block { .. }
        | PrintedLine::ReadBlock { .. }
        | PrintedLine::UnevenRead
        | PrintedLine::Unread { .. }
        | PrintedLine::Memory { .. }
        | PrintedLine::Summary(_) => false,
    }
}

/// Whether it blocks a question, or a read.
#[tactic(auto, unfolding(crate::specs::Lines::is_block))]
pub(crate) fn is_block(line: &PrintedLine) -> bool
    ensures { result ≡ is_block line.now }
{
    match line {
        PrintedLine::Block { .. } | PrintedLine::ReadBlock { .. } => true,
        PrintedLine::Begin { .. }
        | PrintedLine::End { .. }
        | PrintedLine::Publish { .. }
        | PrintedLine::Answer { .. }
        | PrintedLine::Read { .. }
        | PrintedLine::UnevenRead
        | PrintedLine::Unread { .. }
        | PrintedLine::Memory { .. }
        | PrintedLine::Summary(_) => false,
    }
}

#[tactic(auto, unfolding(crate::specs::Lines::is_untested))]
fn is_untested(why: &PrintedBlock) -> bool
    ensures { result ≡ is_untested why.now }
{
    match why {
        PrintedBlock::Refuted(_) => false,
        PrintedBlock::Spent(_) => true,
        PrintedBlock::Stuck(_) => true,
    }
}

/// Whether there is nothing to test of it but form, number and version.
#[tactic(auto, unfolding(crate::specs::Lines::is_unaudited))]
pub(crate) fn is_unaudited(line: &PrintedLine) -> bool
    ensures { result ≡ is_unaudited line.now }
{
    match line {
        PrintedLine::Block { blocked, .. } => is_untested(blocked),
        PrintedLine::ReadBlock { blocked, .. } => is_untested(blocked),
        PrintedLine::Memory { .. } => true,
        PrintedLine::Begin { .. }
        | PrintedLine::End { .. }
        | PrintedLine::Publish { .. }
        | PrintedLine::Answer { .. }
        | PrintedLine::Read { .. }
        | PrintedLine::UnevenRead
        | PrintedLine::Unread { .. }
        | PrintedLine::Summary(_) => false,
    }
}
