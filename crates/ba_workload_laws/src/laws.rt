//! Laws of the definitions.
ghost use Rattle.ba_workload_laws.specs.Ends.{WorkloadIsRead};
ghost use Rattle.ba_workload_laws.specs.Reads.{PolicyReadsBack, SchemaReadsBack};

/// The schema's text is read as the schema of the tables `Users`, `Events` and `Attendances`.
pub fn schema_reads_back()
    ensures { SchemaReadsBack }
{}

/// Over that schema the policy's text is read as the policy of one parameter and three views.
pub fn policy_reads_back()
    ensures { PolicyReadsBack }
{}

/// No workload of as many requests as one may have is refused: a command that runs it is given its
/// schema, its policy, its tables and its script, and no table sets or templates.
pub fn workload_is_read()
    ensures { WorkloadIsRead }
{}
