//! Files over memory.
use kt_eval::{FileFault, Files, MemFiles};
use std::test::Fail;

#[test]
fn reads_what_is_there(rt: HostRuntime) -> Result<(), Fail> {
    let alloc = rt.alloc();
    let name = "Makefile".to_string(alloc)?;
    let bytes = Vec::from_slice(alloc, b"all:\n")?;
    let mut files = MemFiles::new(alloc, vec![in alloc; (name, bytes)]?, 3);
    assert!(rt; matches!(files.read("makefile"), Ok(None)));
    let Ok(Some(found)) = files.read("Makefile") else {
        return Err(Fail::from("nothing is there"));
    };
    assert_eq!(rt; found.as_slice(), b"all:\n".as_slice());
    assert_eq!(rt; files.failures(), 0);
    assert!(rt; matches!(files.read("Makefile"), Err(FileFault::Device)));
    assert_eq!(rt; files.failures(), 1);
    assert_eq!(rt; files.asked().len(), 3);
    for (asked, name) in files
        .asked()
        .iter()
        .zip(["makefile", "Makefile", "Makefile"])
    {
        assert_eq!(rt; asked.as_str(), name);
    }
    assert!(rt; matches!(files.read("Makefile"), Ok(Some(_))));
    Ok(())
}
