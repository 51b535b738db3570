//! A service: made, split, joined and closed, publications, and templates that are loaded.
ghost use Rattle.std.specs.Prelude.{◌≡◌, ◌<◌, IfOk, OnErr};
ghost use Rattle.ba_cache.specs.Passes.{CallsOn, known_on};
ghost use Rattle.ba_cache.specs.Reads.{admitted};
ghost use Rattle.ba_cache.specs.Rows.{shape_of_template};
ghost use Rattle.ba_template.specs.Shapes.{shard_of};
ghost use Rattle.ba_turn.specs.Passes.{MakesCall, known_by, start_of};
ghost use Rattle.ba_versions.specs.Reads.{opening_of, published};
ghost use Rattle.ba_session.specs.Passing.{AreClosed, AreJoined, AreOf, AreOpening, AreSplit, AreWhole, CanSplit, IsOpened, LeavesShelves, LeavesVersions};

use crate::service::{Closed, Passes, Service};
use ba_cache::{Admit, Cache};
use ba_model::{Policy, Shared};
use ba_tables::Tables;
use ba_template::Template;
use ba_turn::Turn;
use ba_versions::{Versions, publish};
use std::alloc::{AllocError, Global};
use std::sync::Wait;

impl Service {
    /// The tables are version 0, and all shelves are empty: `calls` calls may be made on the
    /// versions, and `looks` on each shelf. The opening passes have the number 0. All memory that
    /// the histories will need is asked for here; where it is refused, nothing is left.
    ///
    /// The tables are of the policy's schema.
    pub fn new(
        alloc: Global,
        policy: Shared<Policy>,
        tables: Shared<Tables>,
        calls: u32,
        looks: u32,
    ) -> Result<(Service, Passes), AllocError>
        requires schema { tables.schema ≡ policy.schema }
        ensures policy { IfOk result (λ r. r.0.policy ≡ policy) }
        ensures opening { IfOk result (λ r. opening_of (start_of r.0.versions) ≡ tables) }
        ensures passes { IfOk result (λ r. AreOf r.0 r.1) }
        ensures known { IfOk result (λ r. IsOpened calls looks r.1) }
    {
        let versions = Versions::new(alloc, tables)?;
        let (versions, version_pass) = Turn::new(alloc, versions, calls)?;
        let (cache, cache_pass) = Cache::new(alloc, looks)?;
        let service = Service {
            policy,
            versions,
            cache,
        };
        let passes = Passes {
            versions: version_pass,
            cache: cache_pass,
        };
        Ok((service, passes))
    }

    /// The policy.
    pub fn policy(&self) -> &Shared<Policy>
        ensures { result.now ≡ self.now.policy }
    {
        &self.policy
    }

    /// Splits passes off the opening ones: they get this much of the allowances, and the next
    /// number on each object. Where memory is refused, nothing is split.
    pub fn split(
        &self,
        alloc: Global,
        passes: &mut Passes,
        calls: u32,
        looks: u32,
    ) -> Result<Passes, AllocError>
        requires of { AreOf self.now passes.old }
        requires can { CanSplit calls looks passes.old }
        ensures of { AreOf self.now passes.new }
        ensures new { IfOk result (AreOf self.now) }
        ensures split { IfOk result (AreSplit calls looks passes.old passes.new) }
        ensures err { OnErr result (passes.new ≡ passes.old) }
    {
        let cache = self.cache.split(alloc, &mut passes.cache, looks)?;
        let versions = self.versions.split(&mut passes.versions, calls);
        Ok(Passes { versions, cache })
    }

    /// Joins passes into the opening ones, which keep of each object the longer history and the
    /// joined number's calls.
    pub fn join(&self, passes: &mut Passes, other: Passes)
        requires of { AreOf self.now passes.old }
        requires other { AreOf self.now other }
        requires opening { AreOpening passes.old }
        ensures of { AreOf self.now passes.new }
        ensures joined { AreJoined passes.old other passes.new }
    {
        let Passes { versions, cache } = other;
        self.versions.join(&mut passes.versions, versions);
        self.cache.join(&mut passes.cache, cache);
    }

    /// Gives what was told, once the whole allowances were spent or have come back to these passes.
    /// Where memory is refused, all is dropped.
    pub fn close(self, alloc: Global, passes: Passes) -> Result<Closed, AllocError>
        requires of { AreOf self passes }
        requires all { AreWhole self passes }
        ensures { IfOk result (AreClosed self passes) }
    {
        let Service {
            versions,
            cache,
            ..
        } = self;
        let Passes {
            versions: version_pass,
            cache: cache_pass,
        } = passes;
        let shelves = cache.close(alloc, cache_pass)?;
        let (versions, numbers) = versions.close(version_pass);
        let _legal = versions.calls();
        Ok(Closed {
            versions,
            numbers,
            shelves,
        })
    }

    /// The tables, of the policy's schema, become the last version; the answer is its number. It
    /// waits for its turn, and costs one call of the allowance on the versions. Requests keep
    /// theirs.
    pub fn publish<R: Wait>(&self, rt: &R, passes: &mut Passes, tables: Shared<Tables>) -> u32
        requires of { AreOf self.now passes.old }
        requires left { 0 < (known_by passes.old.versions).left }
        requires schema { tables.schema ≡ self.now.policy.schema }
        ensures of { AreOf self.now passes.new }
        ensures made { MakesCall (known_by passes.old.versions) (known_by passes.new.versions)
            (published tables result) }
        ensures others { LeavesShelves passes.old passes.new }
    {
        publish(rt, &self.versions, &mut passes.versions, tables)
    }

    /// The template is admitted to the shelf of its shape's shard, for the questions that follow;
    /// the answer is the shelf's, with the number that the template has there. It waits for its
    /// turn, and costs one call of the allowance on that shelf, where memory is refused too: the
    /// shelf then stands as before.
    pub fn load<R: Wait>(
        &self,
        rt: &R,
        passes: &mut Passes,
        template: Shared<Template>,
    ) -> Result<Admit, AllocError>
        requires of { AreOf self.now passes.old }
        requires left { 0 < (known_on passes.old.cache (shard_of (shape_of_template template))).left }
        ensures of { AreOf self.now passes.new }
        ensures made { CallsOn (shard_of (shape_of_template template)) passes.old.cache
            passes.new.cache (admitted template result) }
        ensures others { LeavesVersions passes.old passes.new }
    {
        self.cache.admit(rt, &mut passes.cache, template)
    }
}
