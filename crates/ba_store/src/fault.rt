//! Why bytes are no template file.
ghost use Rattle.std.specs.Prelude.{◌≡◌, Err};
ghost use Rattle.ba_store.specs.Shapes.{field_name};

use ba_kernel::StepFault;
use ba_model::Failure;

/// A field of a template's line. Of several bad ones the first of this order is told.
#[derive(Clone, Copy, Debug, PartialEq, Eq)]
pub enum StoreField {
    /// The number of the format, which is 1.
    Version,
    /// The kinds of the variables, which with the policy's parameters are at most
    /// [`ba_model::MAX_OPERANDS`].
    Vars,
    /// The question, with variables.
    Goal,
    /// Queries, each with a row of its width and kinds, at most [`ba_model::MAX_KEPT_ENTRIES`]; each
    /// variable stands in the goal or one of them.
    Entries,
    /// What is assumed of the variables and parameters.
    Condition,
    /// The steps, at most [`ba_model::MAX_STEPS`].
    Steps,
    /// The keys are these six and no others.
    Keys,
}

impl StoreField {
    /// The name of the field; `keys` for the keys themselves.
    pub fn name(self) -> &'static str
        ensures { result.now ≡ field_name self }
    {
        match self {
            StoreField::Version => "version",
            StoreField::Vars => "vars",
            StoreField::Goal => "goal",
            StoreField::Entries => "entries",
            StoreField::Condition => "condition",
            StoreField::Steps => "steps",
            StoreField::Keys => "keys",
        }
    }
}

/// Why a line says no problem and steps. Of several faults the first of this order is told.
#[derive(Clone, Copy, Debug, PartialEq, Eq)]
pub enum LineFault {
    /// It isn't UTF-8, or no JSON object.
    Json,
    /// The field isn't there, or isn't what it has to be.
    Field(StoreField),
}

/// Why bytes are no template file: there are too many lines, else why the first bad line is none.
/// Lines are numbered from 1, steps from 0.
#[derive(Clone, Copy, Debug, PartialEq, Eq)]
pub enum StoreFault {
    /// There are more lines than this limit, [`ba_model::MAX_TEMPLATES`].
    TooMany { limit: u64 },
    /// The line isn't UTF-8, or no JSON object.
    Json(u64),
    /// In the line the field isn't there, or isn't what it has to be.
    Field(u64, StoreField),
    /// In the line the step of this number is the first that isn't accepted, for this fault.
    NotShown(u64, u64, StepFault),
    /// In the line all steps are accepted, and so many branches are open.
    StillOpen(u64, u64),
}

/// The field is bad.
pub(crate) fn bad<T>(field: StoreField) -> Result<T, Failure<StoreField>>
    ensures { result ≡ Err (Failure.Fault field) }
{
    Err(Failure::Fault(field))
}
