//! Proofs that are accepted, and proofs that aren't.

use super::files::first_wrong;
use std::test::Fail;

/// One step changed, the context of another user, the last step left out; a key between two users, and a link that was followed.
const CHANGES: &str = "[2]]] => [2]]] => accepted 3
[2]]] => [0]]] => step 2: fact
\"MyUId\":2 => \"MyUId\":1 => step 1: cond 1
,[\"goal\",0,0,[2]] =>  => open 1
,[\"goal\",0,0,[2]] => ,[\"link\",0,1,1],[\"goal\",0,0,[2]] => accepted 4
,[\"goal\",0,0,[2]] => ,[\"link\",0,1,1],[\"goal\",0,0,[3]] => step 3: fact
[\"view\",0,2,0,[0,1]] => [\"key\",0,0,0,0],[\"view\",0,2,0,[0,1]] => accepted 4
[\"view\",0,2,0,[0,1]] => [\"key\",0,1,0,0] => step 1: rule
[\"view\",0,2,0,[0,1]] => [\"view\",0,3,0,[0,1]] => step 1: rule
[\"view\",0,2,0,[0,1]] => [\"view\",0,2,0,[1,0]] => step 1: fact
[\"view\",0,2,0,[0,1]] => [\"absurd\",0] => step 1: absurd
[\"view\",0,2,0,[0,1]] => [\"split\",0,[\"=\",[\"u\",0],7]],[\"absurd\",0],[\"view\",1,2,0,[0,1]],[\"goal\",1,0,[2]] => step 5: branch
[\"view\",0,2,0,[0,1]] => [\"split\",0,[\"<\",[\"p\",\"MyUId\"],\"a\"]] => step 1: rule
[\"view\",0,2,0,[0,1]] => [\"split\",0,[\"<\",[\"u\",99],1]] => step 1: fact
\\\"Title\\\" => \\\"EId\\\" => accepted 3
\\\"Title\\\" => \\\"Duration\\\" => accepted 3
t0 WHERE t0.\\\"EId\\\" = 5\",\"steps\" => t0 WHERE t0.\\\"EId\\\" = 6\",\"steps\" => step 1: cond 0";

#[test]
fn checked_proofs(rt: HostRuntime) -> Result<(), Fail> {
    let wrong = first_wrong(rt.alloc(), CHANGES)?;
    assert_eq!(rt; wrong, "");
    Ok(())
}
