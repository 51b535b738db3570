//! Whether equations alone are used.
ghost use Rattle.std.specs.Prelude.{◌≡◌, ◌↔◌, false, All, IsTrue};
ghost use Rattle.ba_model.specs.Equations.{AreEquations, AreFilled, IsOfEquations, PolicyIsOfEquations};
ghost use Rattle.ba_model.specs.declared.policy.View.{View as PolicyView};
ghost use Rattle.ba_model.specs.declared.schema.Rule.{Rule as SchemaRule};

use crate::policy::{Policy, View};
use crate::query::{Atom, Op, Part, Query};
use crate::schema::{Column, Rule, Table};

impl Op {
    /// Whether it is `=`.
    pub fn is_equation(self) -> bool
        ensures { IsTrue result ↔ (self ≡ Op.Eq) }
    {
        match self {
            Op::Eq => true,
            Op::Ne | Op::Lt | Op::Le | Op::IsNull | Op::NotNull => false,
        }
    }
}

impl Part {
    /// Whether each of its atoms is an `=`.
    pub fn equations(&self) -> bool
        ensures { IsTrue result ↔ AreEquations self.now.conds }
    {
        let conds = self.conds.as_slice();
        conds.iter().all(|atom| is_equation(atom))
    }
}

fn is_equation(atom: &Atom) -> bool
    ensures { IsTrue result ↔ (atom.now.op ≡ Op.Eq) }
{
    atom.op.is_equation()
}

impl Query {
    /// Whether each of its atoms is an `=`. Takes no memory.
    pub fn equations(&self) -> bool
        ensures { IsTrue result ↔ IsOfEquations self.now }
    {
        let parts = self.parts.as_slice();
        parts.iter().all(|part| part.equations())
    }
}

impl Policy {
    /// Whether no column of the schema may be NULL, and each atom of its rules and of the views is
    /// an `=`. Takes no memory.
    pub fn equations(&self) -> bool
        ensures { IsTrue result ↔ PolicyIsOfEquations self.now }
    {
        are_filled(self.schema.tables.as_slice())
            && are_left_equations(self.schema.rules.as_slice())
            && are_right_equations(self.schema.rules.as_slice())
            && are_views_equations(self.views.as_slice())
    }
}

fn is_filled(column: &Column) -> bool
    ensures { IsTrue result ↔ (column.now.nullable ≡ false) }
{
    !column.nullable
}

fn are_columns_filled(table: &Table) -> bool
    ensures { IsTrue result ↔ AreFilled table.now }
{
    let columns = table.columns.as_slice();
    columns.iter().all(|column| is_filled(column))
}

fn are_filled(tables: &[Table]) -> bool
    ensures { IsTrue result ↔ All AreFilled tables.now }
{
    tables.iter().all(|table| are_columns_filled(table))
}

fn are_left_equations(rules: &[Rule]) -> bool
    ensures { IsTrue result ↔ All (λ (rule : SchemaRule). IsOfEquations rule.left) rules.now }
{
    rules.iter().all(|rule| rule.left.equations())
}

fn are_right_equations(rules: &[Rule]) -> bool
    ensures { IsTrue result ↔ All (λ (rule : SchemaRule). IsOfEquations rule.right) rules.now }
{
    rules.iter().all(|rule| rule.right.equations())
}

fn are_views_equations(views: &[View]) -> bool
    ensures { IsTrue result ↔ All (λ (view : PolicyView). IsOfEquations view.query) views.now }
{
    views.iter().all(|view| view.query.equations())
}
