//! What is found, and in which words it is told.

use std::alloc::{AllocError, Global};

/// How much a finding weighs.
#[derive(Clone, Copy, PartialEq, Eq)]
pub enum Weight {
    /// The file isn't read as it stands.
    Error,
    /// It is read, and may not mean what its author meant.
    Warning,
    /// Nothing is wrong.
    Note,
}

impl Weight {
    /// The word before a finding.
    pub fn word(self) -> &'static str {
        match self {
            Weight::Error => "error",
            Weight::Warning => "warning",
            Weight::Note => "note",
        }
    }

    /// Whether it is that of a note.
    pub fn is_note(self) -> bool {
        self == Weight::Note
    }
}

/// Which rows of a table every user is shown.
#[derive(Clone, Copy)]
pub enum Scope {
    /// All of them.
    All,
    /// All of them, where the view's other tables have a row.
    Beside,
    /// Those that meet conditions in which no parameter is equal to a column.
    Chosen,
}

impl Scope {
    // Which rows of a table are shown to whom.
    fn text(self, alloc: Global, table: &str) -> Result<String, AllocError> {
        match self {
            Scope::All => format!(in alloc; "all rows of {table} are shown to every user"),
            Scope::Beside => {
                format!(in alloc;
                    "all rows of {table} are shown to every user for whom its other tables have a row"
                )
            }
            Scope::Chosen => {
                format!(in alloc;
                    "the rows of {table} that meet its conditions are shown to every user"
                )
            }
        }
    }
}

/// A finding. Names are those of the files.
#[derive(Clone, Copy)]
pub enum Finding<'a> {
    /// A fault of a file, with what would mend it.
    Fault(&'a str),
    /// No column of a table that a view shows is tied to a parameter, by equations and joins.
    Untied {
        view: &'a str,
        table: &'a str,
        scope: Scope,
    },
    /// A view compares a column, and puts out neither it nor what is equal to it.
    Hidden {
        view: &'a str,
        table: &'a str,
        column: &'a str,
    },
    /// A view shows a table, and no key of it. The columns are those of its first key.
    Keyless {
        view: &'a str,
        table: &'a str,
        columns: &'a str,
    },
    /// No row meets the conditions of a view, or of one of its parts where it has several.
    NeverMet {
        view: &'a str,
        is_whole: bool,
    },
    /// Another view shows all that a view shows.
    ShownBy {
        view: &'a str,
        other: &'a str,
    },
    /// No row of the tables has a literal that a view compares a column with.
    NoRow {
        view: &'a str,
        table: &'a str,
        column: &'a str,
        literal: &'a str,
    },
    /// No view uses a parameter.
    UnusedParam(&'a str),
    /// A link leads back to its own table, maybe by way of others.
    LinkBack {
        table: &'a str,
        target: &'a str,
    },
    /// A question is refuted. The views would cover it; which of their literals are no parameters,
    /// though they are values of some, is said before them.
    Refuted {
        views: &'a str,
        kept: &'a str,
    },
    /// The views that show a column, each with its parameters.
    Shown {
        table: &'a str,
        column: &'a str,
        views: &'a str,
    },
    /// No view shows a column.
    Unseen {
        table: &'a str,
        column: &'a str,
    },
    /// No view reads a table.
    UnreadTable(&'a str),
}

impl Finding<'_> {
    /// How much it weighs.
    pub fn weight(&self) -> Weight {
        match self {
            Finding::Fault(_) => Weight::Error,
            Finding::Shown { .. } | Finding::Unseen { .. } | Finding::UnreadTable(_) =>
                Weight::Note,
            _ => Weight::Warning,
        }
    }

    /// The finding in words, with what would mend it.
    pub fn text(&self, alloc: Global) -> Result<String, AllocError> {
        match *self {
            Finding::Fault(text) => String::from_str(alloc, text),
            Finding::UnusedParam(name) => {
                format!(in alloc; "no view uses the parameter {name}: leave it out, or compare it")
            }
            Finding::LinkBack { table, target } => {
                format!(in alloc;
                    "this link of {table} to {target} leads back to {table}, so that a search may take it until its budget is spent; leave it out where no question needs it"
                )
            }
            Finding::Refuted { views, kept } => refuted_text(alloc, views, kept),
            Finding::Shown {
                table,
                column,
                views,
            } => format!(in alloc; "{table}.{column} is shown by {views}"),
            Finding::Unseen { table, column } => format!(in alloc;
                "no view shows {table}.{column}"
            ),
            Finding::UnreadTable(table) => format!(in alloc; "no view reads {table}"),
            _ => self.view_text(alloc),
        }
    }

    // The same of a finding on a view.
    fn view_text(&self, alloc: Global) -> Result<String, AllocError> {
        match *self {
            Finding::Untied { view, table, scope } => {
                let shown = scope.text(alloc, table)?;
                format!(in alloc;
                    "view {view}: {shown}; tie a column of {table} to a parameter, or put -- public behind the view if that is meant"
                )
            }
            Finding::Hidden {
                view,
                table,
                column,
            } => {
                format!(in alloc;
                    "view {view} compares {table}.{column} and puts out neither it nor a column equal to it, so it covers no question that puts it out or compares it with anything else; put it out"
                )
            }
            Finding::Keyless {
                view,
                table,
                columns,
            } => {
                format!(in alloc;
                    "view {view} puts out no key of {table}, so that its rows aren't known among those of other views; put out {columns}"
                )
            }
            Finding::NeverMet { view, is_whole } => {
                let whose = if is_whole {
                    "its conditions"
                } else {
                    "the conditions of one of its parts, a SELECT with a choice of each OR and IN"
                };
                format!(in alloc;
                    "view {view}: no row can meet {whose}: they contradict each other"
                )
            }
            Finding::ShownBy { view, other } => {
                format!(in alloc; "view {other} shows all that view {view} shows: leave {view} out")
            }
            Finding::NoRow {
                view,
                table,
                column,
                literal,
            } => {
                format!(in alloc;
                    "view {view} compares {table}.{column} with {literal}, which no row has there"
                )
            }
            _ => Ok(String::new(alloc)),
        }
    }
}

// That a question is refuted, with the views that would cover it.
fn refuted_text(alloc: Global, views: &str, kept: &str) -> Result<String, AllocError> {
    let front = "the question is blocked as refuted; what would cover it widens the policy";
    if kept.is_empty() {
        return format!(in alloc; "{front}: {views}");
    }
    format!(in alloc; "{front} ({kept}): {views}")
}
