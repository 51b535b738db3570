//! Laws of the definitions.
ghost use Rattle.std.specs.Prelude.{◌≡◌};
ghost use Rattle.ba_model.specs.Limits.{least_budget, least_workers, most_alike, most_asks, most_atoms, most_budget, most_cache_keys, most_columns, most_entries, most_file_bytes, most_head, most_key_queries, most_keys, most_lines, most_links, most_name_bytes, most_operands, most_params, most_part_tables, most_parts, most_query_bytes, most_requests, most_rows, most_rules, most_seed, most_shapes, most_steps, most_tables, most_templates, most_text_bytes, most_views, most_workers, shard_count, usual_budget, usual_workers};
ghost use Rattle.ba_model.specs.Meaning.{AnswerIsUnique};
ghost use Rattle.ba_model.specs.QueryFaults.{QueryHasNoFault};

use crate::limits::{
    BUDGET, MAX_ALIKE, MAX_ASKS, MAX_ATOMS, MAX_BUDGET, MAX_CACHE_KEYS, MAX_COLUMNS,
    MAX_FILE_BYTES, MAX_HEAD, MAX_KEPT_ENTRIES, MAX_KEY_QUERIES, MAX_KEYS, MAX_LINES, MAX_LINKS,
    MAX_NAME_BYTES, MAX_OPERANDS, MAX_PARAMS, MAX_PART_TABLES, MAX_PARTS, MAX_QUERY_BYTES,
    MAX_REQUESTS, MAX_ROWS, MAX_RULES, MAX_SEED, MAX_SHAPES, MAX_STEPS, MAX_TABLES, MAX_TEMPLATES,
    MAX_TEXT_BYTES, MAX_VIEWS, MAX_WORKERS, MIN_BUDGET, MIN_WORKERS, SHARDS, WORKERS,
};

/// A query has one answer over a database.
pub fn answer_is_unique()
    ensures { AnswerIsUnique }
{}

/// A query for a schema, parameters and variables is exactly what has none of the faults.
pub fn query_has_no_fault()
    ensures { QueryHasNoFault }
{}

/// The constants are the limits of the definitions.
pub fn limits_are()
    ensures tables { MAX_TABLES ≡ most_tables }
    ensures columns { MAX_COLUMNS ≡ most_columns }
    ensures keys { MAX_KEYS ≡ most_keys }
    ensures links { MAX_LINKS ≡ most_links }
    ensures rules { MAX_RULES ≡ most_rules }
    ensures part_tables { MAX_PART_TABLES ≡ most_part_tables }
    ensures parts { MAX_PARTS ≡ most_parts }
    ensures atoms { MAX_ATOMS ≡ most_atoms }
    ensures head { MAX_HEAD ≡ most_head }
    ensures views { MAX_VIEWS ≡ most_views }
    ensures params { MAX_PARAMS ≡ most_params }
    ensures cache_keys { MAX_CACHE_KEYS ≡ most_cache_keys }
    ensures key_queries { MAX_KEY_QUERIES ≡ most_key_queries }
    ensures rows { MAX_ROWS ≡ most_rows }
    ensures query_bytes { MAX_QUERY_BYTES ≡ most_query_bytes }
    ensures text_bytes { MAX_TEXT_BYTES ≡ most_text_bytes }
    ensures file_bytes { MAX_FILE_BYTES ≡ most_file_bytes }
    ensures lines { MAX_LINES ≡ most_lines }
    ensures requests { MAX_REQUESTS ≡ most_requests }
    ensures asks { MAX_ASKS ≡ most_asks }
    ensures name_bytes { MAX_NAME_BYTES ≡ most_name_bytes }
    ensures least_workers { MIN_WORKERS ≡ least_workers }
    ensures workers { MAX_WORKERS ≡ most_workers }
    ensures usual_workers { WORKERS ≡ usual_workers }
    ensures seed { MAX_SEED ≡ most_seed }
    ensures least_budget { MIN_BUDGET ≡ least_budget }
    ensures budget { MAX_BUDGET ≡ most_budget }
    ensures usual_budget { BUDGET ≡ usual_budget }
    ensures steps { MAX_STEPS ≡ most_steps }
    ensures entries { MAX_KEPT_ENTRIES ≡ most_entries }
    ensures operands { MAX_OPERANDS ≡ most_operands }
    ensures shard_count { SHARDS ≡ shard_count }
    ensures shapes { MAX_SHAPES ≡ most_shapes }
    ensures alike { MAX_ALIKE ≡ most_alike }
    ensures templates { MAX_TEMPLATES ≡ most_templates }
{}
