//! Laws of the definitions.
ghost use Rattle.ba_workload.specs.Files.{FilesHoldTheirBytes};
ghost use Rattle.ba_workload.specs.Reads.{ScriptReadsBack, TablesReadBack};

/// The table files read as the tables' rows.
pub fn tables_read_back()
    ensures { TablesReadBack }
{}

/// The text of a script of at most 8192 requests is read as that script, where the policy has the
/// one parameter `MyUId`.
pub fn script_reads_back()
    ensures { ScriptReadsBack }
{}

/// Files in memory hold, under each name, the bytes of the first file of that name, and nothing under
/// other names.
pub fn files_hold_their_bytes()
    ensures { FilesHoldTheirBytes }
{}
