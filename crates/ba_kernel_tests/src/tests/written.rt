//! Files that are written, byte for byte.

use super::files::{changed, policy};
use ba_proof::{read_proof, write_proof};
use std::alloc::{AllocError, Global};
use std::test::Fail;

/// Whether a file is written again as it was.
fn is_kept(alloc: Global, text: &str) -> Result<bool, AllocError> {
    let policy = policy(alloc)?;
    let Ok(proof) = read_proof(alloc, &policy, text.as_bytes()) else {
        return Ok(false);
    };
    let bytes = write_proof(alloc, &proof.problem, &proof.steps)?;
    Ok(bytes.as_slice() == text.as_bytes())
}

/// Each kind of step that is read, and each kind of term.
const STEPS: &str =
    "[\"key\",1,2,3,4],[\"link\",5,6,7],[\"split\",8,[\"=\",[\"u\",9],-10]],[\"split\",0,[\"<>\",[\"p\",\"MyUId\"],[\"u\",0]]],[\"split\",0,[\"<\",1,2]],[\"split\",0,[\"<=\",\"a'\\\"\",[\"u\",4294967295]]],[\"absurd\",11],[\"view\",0,1,0,[]],[\"entry\",4294967295,18446744073709551615]";

#[test]
fn each_kind_of_step(rt: HostRuntime) -> Result<(), Fail> {
    let alloc = rt.alloc();
    let file = changed(alloc, "[\"entry\",0,0]", STEPS)?;
    let kept = is_kept(alloc, file.as_str())?;
    assert!(rt; kept, "the same bytes");
    Ok(())
}
