// What the program says, in the tests of its tasks.
use crate::trouble::Trouble;
use std::alloc::Global;
use std::test::Fail;

// The report, or else the trouble.
pub(crate) fn said(heap: Global, reply: Result<String, Trouble>) -> Result<String, Fail> {
    match reply {
        Ok(report) => Ok(report),
        Err(trouble) => Ok(trouble.to_string(heap)?),
    }
}
