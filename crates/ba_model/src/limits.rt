//! The limits of the program. One more than the most is refused.
ghost use Rattle.std.specs.Prelude.{◌≡◌};
ghost use Rattle.ba_model.specs.Limits.{limit_of};

/// Tables of a schema.
pub const MAX_TABLES: usize = 64;

/// Columns of a table.
pub const MAX_COLUMNS: usize = 32;

/// Keys of a table.
pub const MAX_KEYS: usize = 16;

/// Links of a table.
pub const MAX_LINKS: usize = 16;

/// Inclusion rules of a schema.
pub const MAX_RULES: usize = 64;

/// Tables of a part of a query.
pub const MAX_PART_TABLES: usize = 8;

/// Parts of a query.
pub const MAX_PARTS: usize = 32;

/// Atoms of a part.
pub const MAX_ATOMS: usize = 64;

/// Operands of a part's head.
pub const MAX_HEAD: usize = 256;

/// Views of a policy.
pub const MAX_VIEWS: usize = 128;

/// Parameters of a policy, with the arguments of one cache key.
pub const MAX_PARAMS: usize = 16;

/// Cache keys of a policy.
pub const MAX_CACHE_KEYS: usize = 128;

/// Queries behind a cache key.
pub const MAX_KEY_QUERIES: usize = 8;

/// Rows of a table.
pub const MAX_ROWS: u64 = 100_000;

/// Bytes of a query's text.
pub const MAX_QUERY_BYTES: usize = 65_536;

/// Bytes of a schema's or a policy's text.
pub const MAX_TEXT_BYTES: usize = 1_048_576;

/// Bytes of any other file.
pub const MAX_FILE_BYTES: u64 = 67_108_864;

/// Lines of a script.
pub const MAX_LINES: usize = 65_536;

/// Requests of a script.
pub const MAX_REQUESTS: u32 = 8192;

/// Questions of a request.
pub const MAX_ASKS: u32 = 256;

/// Bytes of a request's name.
pub const MAX_NAME_BYTES: usize = 64;

/// The fewest workers.
pub const MIN_WORKERS: u64 = 1;

/// The most workers.
pub const MAX_WORKERS: u64 = 16;

/// The workers where the words don't say.
pub const WORKERS: u32 = 1;

/// The greatest seed of a generated script.
pub const MAX_SEED: u64 = 9_223_372_036_854_775_807;

/// The least budget of steps for a decision.
pub const MIN_BUDGET: u64 = 16;

/// The greatest budget of steps for a decision.
pub const MAX_BUDGET: u64 = 100_000;

/// The budget where the words don't say.
pub const BUDGET: u32 = 2000;

/// Steps of a proof.
pub const MAX_STEPS: u64 = 100_000;

/// Entries of a template.
pub const MAX_KEPT_ENTRIES: usize = 8;

/// Variables of a template and parameters of its policy, taken together.
pub const MAX_OPERANDS: usize = 64;

/// The shelves of templates, each with the shapes of one remainder.
pub const SHARDS: u32 = 8;

/// Shapes of a shelf.
pub const MAX_SHAPES: usize = 128;

/// Templates of a shape.
pub const MAX_ALIKE: usize = 8;

/// Templates of a file.
pub const MAX_TEMPLATES: u64 = 8192;

/// What is counted in a file, and refused above its limit.
#[derive(Clone, Copy, Debug, PartialEq, Eq)]
pub enum Counted {
    /// The bytes of a schema's or a policy's text.
    TextBytes,
    /// The bytes of a file.
    FileBytes,
    /// The tables of a schema.
    Tables,
    /// The columns of a table.
    Columns,
    /// The keys of a table.
    Keys,
    /// The links of a table.
    Links,
    /// The inclusion rules of a schema.
    Rules,
    /// The views of a policy.
    Views,
    /// The parameters of a policy, with the arguments of one cache key.
    Params,
    /// The cache keys of a policy.
    CacheKeys,
    /// The queries behind a cache key.
    KeyQueries,
    /// The rows of a table.
    Rows,
    /// The lines of a script.
    Lines,
    /// The requests of a script.
    Requests,
    /// The questions of a request.
    Asks,
    /// The steps of a proof.
    Steps,
    /// The templates of a file.
    Templates,
}

impl Counted {
    /// The most of it.
    pub fn limit(self) -> u64
        ensures { result ≡ limit_of self }
    {
        match self {
            Counted::TextBytes => MAX_TEXT_BYTES as u64,
            Counted::FileBytes => MAX_FILE_BYTES,
            Counted::Tables => MAX_TABLES as u64,
            Counted::Columns => MAX_COLUMNS as u64,
            Counted::Keys => MAX_KEYS as u64,
            Counted::Links => MAX_LINKS as u64,
            Counted::Rules => MAX_RULES as u64,
            Counted::Views => MAX_VIEWS as u64,
            Counted::Params => MAX_PARAMS as u64,
            Counted::CacheKeys => MAX_CACHE_KEYS as u64,
            Counted::KeyQueries => MAX_KEY_QUERIES as u64,
            Counted::Rows => MAX_ROWS,
            Counted::Lines => MAX_LINES as u64,
            Counted::Requests => MAX_REQUESTS as u64,
            Counted::Asks => MAX_ASKS as u64,
            Counted::Steps => MAX_STEPS,
            Counted::Templates => MAX_TEMPLATES,
        }
    }
}
