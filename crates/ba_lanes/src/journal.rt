//! What a run did.
ghost use Rattle.std.specs.Prelude.{◌≡◌, ◌++◌, IfOk, OnOk};
ghost use Rattle.ba_lanes.specs.Legal.{left_templates};

use ba_model::{List, Shared};
use ba_session::{Closed, KeyReply, Reply};
use ba_template::Template;
use std::alloc::{AllocError, Global};

/// What a line of the script says.
#[derive(Clone, Copy, Debug, Drop, PartialEq, Eq)]
pub enum LineKind {
    /// A request begins.
    Begin,
    /// A request asks.
    Ask,
    /// A request reads a cache key.
    Read,
    /// A request ends.
    End,
    /// A table set is published.
    Publish,
}

/// What became of a line of the script. Requests and versions of the tables are numbered from 0.
#[derive(Drop)]
pub enum Entry {
    /// The request begins, over the version that was the last one.
    Begin {
        request: u32,
        version: u32,
    },
    /// A question of the request, over its version, and its reply: an answer, a block, or that the
    /// text is unread. Want of memory is an entry of its own.
    Ask {
        request: u32,
        version: u32,
        reply: Reply,
    },
    /// A read by the request, over its version, of the policy's cache key with this number, and its
    /// reply: that it is let through, or a block. Want of memory is an entry of its own.
    Read {
        request: u32,
        version: u32,
        key: usize,
        reply: KeyReply,
    },
    /// The request ends, over its version.
    End {
        request: u32,
        version: u32,
    },
    /// A table set becomes this version.
    Publish {
        version: u32,
    },
    /// The line found no memory: what it says, the request where it is a line of one, and the
    /// request's version where it has one. A request that found no memory when it began has none,
    /// and so each later line of it finds none.
    Memory {
        kind: LineKind,
        request: Option<u32>,
        version: Option<u32>,
    },
}

/// What a run did: what became of each line of the script, in order, and the histories of what the
/// requests share, each call with the number of the pass that made it: k + 1 of the worker k, and 0
/// of the pass that the workers' passes were split off.
#[derive(Drop)]
pub struct Journal {
    pub entries: List<Entry>,
    pub histories: Closed,
}

impl Journal {
    /// The templates that the histories of the shelves leave, each shared once more: from the shard
    /// 0 on, and of a shelf shapes from the one that was used last on, and the templates of a shape
    /// from the oldest on. The error is want of memory.
    pub fn templates(&self, alloc: Global) -> Result<List<Shared<Template>>, AllocError>
        ensures { IfOk result (λ found. found ≡ left_templates self.now) }
    {
        let mut all = Vec::new(alloc);
        for closed in self.histories.shelves.as_slice() {
            let templates = closed.0.templates(alloc)?;
            put_behind(&mut all, templates)?;
        }
        Ok(List::from_vec(all))
    }
}

// Puts the templates of a shelf behind those of the shelves before it.
fn put_behind(
    all: &mut Vec<Shared<Template>>,
    templates: List<Shared<Template>>,
) -> Result<(), AllocError>
    ensures { OnOk result (all.new.items ≡ all.old.items ++ templates) }
{
    for template in templates.into_vec() {
        all.push(template)?;
    }
    Ok(())
}
