//! Files in memory.
use cb_include::Present;
use cb_pass::{FileMap, Files};
use cb_paths::{NoMemory, Path, PathFault};
use cb_tree::{BuildFault, build};
use std::alloc::Global;
use std::test::Fail;

/// The path of a text.
fn path_of(alloc: Global, text: &[u8]) -> Result<Path, NoMemory> {
    match Path::read(alloc, text) {
        Ok(path) => Ok(path),
        Err(PathFault::NoMemory) => Err(NoMemory),
        Err(PathFault::Bad(_bad)) => Err(NoMemory),
    }
}

/// Puts a source at a path.
fn put(alloc: Global, files: &mut FileMap, path: &[u8], source: &[u8]) -> Result<(), NoMemory> {
    let path = path_of(alloc, path)?;
    match build(alloc, source) {
        Ok(tree) => files.insert(path, tree),
        Err(BuildFault::NoMemory) => Err(NoMemory),
        Err(BuildFault::Bad(_bad)) => Err(NoMemory),
    }
}

/// The number of nodes at a path, where `a.c` was put twice.
fn nodes_at(alloc: Global, path: &[u8]) -> Result<Option<u32>, NoMemory> {
    let mut files = FileMap::new(alloc);
    put(alloc, &mut files, b"a.c", b"x\n")?;
    put(alloc, &mut files, b"a.c", b"x\n#error\n")?;
    let path = path_of(alloc, path)?;
    match files.tree(&path) {
        Some(tree) if files.has(&path) => Ok(Some(tree.len())),
        _ => Ok(None),
    }
}

#[test]
fn files_are_found(rt: HostRuntime) -> Result<(), Fail> {
    assert!(rt; nodes_at(rt.alloc(), b"a.c")? == Some(2));
    assert!(rt; nodes_at(rt.alloc(), b"b.c")?.is_none());
    Ok(())
}
