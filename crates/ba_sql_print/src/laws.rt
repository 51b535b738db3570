//! Laws of the definitions.
ghost use Rattle.ba_sql_print.specs.ReadBack.{CheckedTablesAreApart, PrintedQueryIsRead, PrintedQueryReadsBack};
ghost use Rattle.ba_sql_print.specs.Spelling.{PrintedTextHasWords};

/// The text of a query, where its names and numbers can be written, has these words and no others.
pub fn printed_text_has_words()
    ensures { PrintedTextHasWords }
{}

/// A printed query reads back as itself, and as no other.
///
/// Tables, the columns of a table, and parameters are named apart, as in a checked schema and a policy; the names of tables and columns can
/// stand in quotes, those of parameters are words; whole numbers have 64 bits; and the text has at most 65,536 bytes.
pub fn printed_query_reads_back()
    ensures same { PrintedQueryReadsBack }
    ensures reads { PrintedQueryIsRead }
{
    ba_sql_query::laws::query_reading();
}

/// The tables of a checked schema, and the columns of each, are named apart.
pub fn checked_tables_are_apart()
    ensures { CheckedTablesAreApart }
{}
