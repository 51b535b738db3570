//! JSON objects that become lines.
ghost use Rattle.std.specs.Prelude.{◌≡◌, ◌≤◌, false, IfOk, string_bytes};
ghost use Rattle.serde_json.specs.Data.{no_members, number, string, unsigned, depth, put as with_member};
ghost use Rattle.serde_json.specs.Read.{max_depth};
ghost use Rattle.serde_json.specs.View.{view};
ghost use Rattle.serde_json.specs.Written.{has_float};
ghost use Rattle.ba_wire.specs.Object.{made, members_of};
ghost use Rattle.ba_wire.specs.Printed.{ReadsBack, json_line};

use serde_json::{Map, Value, put};
use std::alloc::{AllocError, Global};

/// An object that is being made.
#[derive(Drop)]
pub(crate) struct Object {
    alloc: Global,
    members: Map<String, Value>,
}

impl Object {
    pub(crate) fn new(alloc: Global) -> Object
        ensures { members_of result ≡ no_members }
    {
        Object {
            alloc,
            members: Map::new(alloc),
        }
    }

    pub(crate) fn with(mut self, key: &str, value: Value) -> Result<Object, AllocError>
        ensures { IfOk result (λ it. members_of it
            ≡ with_member key.now (view value) (members_of self)) }
    {
        put(&mut self.members, self.alloc, key, value)?;
        Ok(self)
    }

    pub(crate) fn with_text(self, key: &str, text: &str) -> Result<Object, AllocError>
        ensures { IfOk result (λ it. members_of it
            ≡ with_member key.now (string text.now) (members_of self)) }
    {
        let value = Value::try_from_str(self.alloc, text)?;
        self.with(key, value)
    }

    pub(crate) fn with_count(self, key: &str, count: u64) -> Result<Object, AllocError>
        ensures { IfOk result (λ it. members_of it
            ≡ with_member key.now (number (unsigned count)) (members_of self)) }
    {
        self.with(key, Value::from(count))
    }

    /// The object's compact text and a line feed.
    pub(crate) fn line(self) -> Result<String, AllocError>
        ensures text { IfOk result (λ s. has_float (made self) ≡ false
            → string_bytes s ≡ json_line (made self)) }
        ensures reads_back { IfOk result (λ s. depth (made self) ≤ max_depth
            → ReadsBack (string_bytes s) (made self)) }
    {
        let alloc = self.alloc;
        let mut text = Value::Object(self.members).to_string(alloc)?;
        text.push('\n')?;
        Ok(text)
    }
}
