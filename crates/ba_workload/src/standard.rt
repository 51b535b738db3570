//! The schema and the policy.
ghost use Rattle.std.specs.Prelude.{◌≡◌, IfOk};
ghost use Rattle.ba_workload.specs.Standard.{params};

use ba_model::{Kind, List, Parameter, Str};
use std::alloc::{AllocError, Global};

pub(crate) const SCHEMA: &str = "CREATE TABLE Users (UId INT PRIMARY KEY, Name TEXT NOT NULL);
CREATE TABLE Events (EId INT PRIMARY KEY, Title TEXT NOT NULL, Duration INT NOT NULL);
CREATE TABLE Attendances (UId INT NOT NULL REFERENCES Users (UId),
  EId INT NOT NULL REFERENCES Events (EId), At INT NOT NULL, PRIMARY KEY (UId, EId));
";

pub(crate) const POLICY: &str = "PARAM MyUId INT;
CREATE VIEW V1 AS SELECT UId, Name FROM Users;
CREATE VIEW V2 AS SELECT UId, EId, At FROM Attendances WHERE UId = ?MyUId;
CREATE VIEW V3 AS SELECT e.EId, e.Title, e.Duration FROM Events e
  JOIN Attendances a ON a.EId = e.EId WHERE a.UId = ?MyUId;
";

/// The policy's parameters.
pub(crate) fn params(alloc: Global) -> Result<List<Parameter>, AllocError>
    ensures { IfOk result (λ it. it ≡ params) }
{
    let name = Str::new(alloc, "MyUId")?;
    let mut params = List::new(alloc);
    params.push(Parameter {
        name,
        kind: Kind::Int,
    })?;
    Ok(params)
}
