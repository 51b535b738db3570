//! Forged files: what isn't read, and steps on branches that aren't open.

use super::files::{changed, first_wrong, verdict};
use std::test::Fail;

/// One change a line: versions, keys, the fields in turn, steps.
const CHANGES: &str = "\"version\":1 => \"version\":0 => field version
\"version\":1 => \"version\":2 => accepted 3
\"version\":1 => \"version\":3 => field version
\"version\":1 => \"version\":1.0 => field version
\"version\":1 => \"version\":\"1\" => field version
,\"version\":1 =>  => field version
\"version\":1 => \"version\":1,\"x\":1 => field keys
\"version\":1 => \"version\":0,\"version\":1 => accepted 3
\"version\":1 => \"version\":1,\"version\":0 => field version
\"context\":{\"MyUId\":2}, =>  => field context
{\"MyUId\":2} => {} => field context
{\"MyUId\":2} => {\"MyUId\":2,\"Other\":1} => field context
{\"MyUId\":2} => {\"MyUId\":\"2\"} => field context
{\"MyUId\":2} => {\"MyUId\":2.0} => field context
{\"MyUId\":2} => [2] => field context
\"row\":[2,5,100] => \"row\":[2,5] => field entries
\"row\":[2,5,100] => \"row\":[2,5,100,1] => field entries
\"row\":[2,5,100] => \"row\":[2,5,\"100\"] => field entries
\"row\":[2,5,100] => \"row\":[2,5,null] => accepted 3
\"row\":[2,5,100] => \"row\":{} => field entries
\"row\":[2,5,100] => \"row\":[2,5,100],\"s\":1 => field entries
\"row\":[2,5,100] => \"rows\":[2,5,100] => field entries
\\\"At\\\" FROM => \\\"When\\\" FROM => field entries
\\\"Title\\\" => \\\"Titel\\\" => field goal
\"goal\" => \"ask\" => field goal
\"entry\" => \"entries\" => field steps
[\"entry\",0,0] => [\"entry\",0] => field steps
[\"entry\",0,0] => [\"entry\",0,0,0] => field steps
[\"entry\",0,0] => [\"entry\",0,-1] => field steps
[\"entry\",0,0] => [\"entry\",4294967296,0] => field steps
[\"entry\",0,0] => [\"entry\",4294967295,0] => step 0: branch
[\"entry\",0,0] => [\"entry\",0,18446744073709551615] => step 0: rule
[\"entry\",0,0] => [\"entry\",0,18446744073709551616] => field steps
[\"entry\",0,0] => [\"entry\",0,0.0] => field steps
[\"entry\",0,0] => [] => field steps
[\"entry\",0,0] => 1 => field steps
[\"entry\",0,0] => [\"rule\",0,0,0,[0]] => field steps
[\"entry\",0,0] => [\"goal\",0,0,[\"0\"]] => field steps
[\"entry\",0,0] => [\"goal\",0,0,0] => field steps
[\"entry\",0,0] => [\"split\",0,[\"=\",[\"p\",\"Other\"],1]] => field steps
[\"entry\",0,0] => [\"split\",0,[\"is null\",[\"u\",0],[\"u\",0]]] => step 1: fact
[\"entry\",0,0] => [\"split\",0,[\"is null\",[\"u\",0],[\"u\",1]]] => step 0: rule
[\"entry\",0,0] => [\"split\",0,[\"=\",[\"u\",0],null]] => field steps
[\"entry\",0,0] => [\"split\",0,[\"=\",[\"v\",0],1]] => field steps
[\"entry\",0,0] => [\"entry\",7,0] => step 0: branch
[\"goal\",0,0,[2]] => [\"goal\",0,0,[2]],[\"goal\",0,0,[2]] => step 3: branch
{\"context\" => [{\"context\" => json
{\"context\" => 1{\"context\" => json";

#[test]
fn forged_proofs(rt: HostRuntime) -> Result<(), Fail> {
    let wrong = first_wrong(rt.alloc(), CHANGES)?;
    assert_eq!(rt; wrong, "");
    Ok(())
}

#[test]
fn deep_file(rt: HostRuntime) -> Result<(), Fail> {
    let alloc = rt.alloc();
    let mut deep = String::new(alloc);
    for _ in 0..200 {
        deep.push('[')?;
    }
    let file = changed(alloc, "[\"entry\",0,0]", deep.as_str())?;
    let found = verdict(alloc, file.as_str())?;
    assert_eq!(rt; found.as_str(), "json");
    Ok(())
}
