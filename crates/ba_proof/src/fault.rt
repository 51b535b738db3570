//! Why bytes are no proof file.
ghost use Rattle.std.specs.Prelude.{◌≡◌};
ghost use Rattle.ba_proof.specs.Shapes.{field_name};

use ba_model::Failure;

/// A field of a proof file. Of several bad ones the first of this order is told.
#[derive(Clone, Copy, Debug, PartialEq, Eq)]
pub enum ProofField {
    /// The number of the format.
    Version,
    /// A value of its kind for each parameter of the policy, and no other name.
    Context,
    /// Queries, each with a row of its width and kinds, which may hold NULL.
    Entries,
    /// The question.
    Goal,
    /// The steps.
    Steps,
    /// The keys are these five and no others.
    Keys,
}

impl ProofField {
    /// The name of the field; `keys` for the keys themselves.
    pub fn name(self) -> &'static str
        ensures { result.now ≡ field_name self }
    {
        match self {
            ProofField::Version => "version",
            ProofField::Context => "context",
            ProofField::Entries => "entries",
            ProofField::Goal => "goal",
            ProofField::Steps => "steps",
            ProofField::Keys => "keys",
        }
    }
}

/// Why bytes are no proof file. Of several faults the first of this order is told.
#[derive(Clone, Copy, Debug, PartialEq, Eq)]
pub enum ProofFault {
    /// They aren't UTF-8, or no JSON object.
    BadJson,
    /// There are more than [`ba_model::MAX_STEPS`] steps.
    TooLong,
    /// The field isn't there, or isn't what it has to be.
    BadField(ProofField),
}

/// The field is bad.
pub(crate) fn bad<T>(field: ProofField) -> Result<T, Failure<ProofFault>>
    ensures { result ≡ Err (Failure.Fault (ProofFault.BadField field)) }
{
    Err(Failure::Fault(ProofFault::BadField(field)))
}
