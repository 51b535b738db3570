//! The generated workload: a schema, a policy, tables, and a script that a seed draws; their files.
#![tactic(auto)]

mod choice;
mod draws;
mod files;
pub mod laws;
mod lines;
mod request;
mod script;
mod standard;
mod tables;

pub use files::{
    POLICY_FILE, SCHEMA_FILE, SCRIPT_FILE, TABLE_SET, workload, workload_files, workload_text,
};
