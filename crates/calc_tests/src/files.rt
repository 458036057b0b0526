//! The memoized size of a file: its length in bytes, and after which changes it is still a hit.
ghost use Rattle.std.specs.Prelude.{◌≡◌, ◌≢◌, string_bytes, IfOk};

use calc_core::files::{FileSize, Files, size};
use comemo::{CacheData, Fault, How, Reply, Top, Track};
use std::alloc::Global;

/// The size of the file at a path, before and after a text is written to another path.
fn sized_around_a_write(
    alloc: Global,
    cache: &mut CacheData<FileSize>,
    files: &mut Files,
    path: &str,
    other: String,
    text: String,
) -> Result<(Reply<u64>, Reply<u64>), Fault>
    requires { string_bytes other ≢ path.now }
    ensures { IfOk result (λ both. both.0.how ≡ How.Stored
        → (both.1.how ≡ How.Hit) × (both.1.output ≡ both.0.output)) }
{
    let before = size(alloc, cache, &files.view(alloc), path, &mut Top::new())?;
    let Ok(()) = files.write(other, text) else {
        return Err(Fault::Memory);
    };
    let after = size(alloc, cache, &files.view(alloc), path, &mut Top::new())?;
    Ok((before, after))
}

/// Writes a text to the file at a path. Returns whether that worked.
pub(crate) fn is_put(alloc: Global, files: &mut Files, path: &str, text: &str) -> bool {
    let Ok(path) = String::from_str(alloc, path) else {
        return false;
    };
    let Ok(text) = String::from_str(alloc, text) else {
        return false;
    };
    files.write(path, text).is_ok()
}

/// Whether the size of the file `a`, which is 5, is stored, and found again after a write to the file `b`.
fn is_kept(alloc: Global, files: &mut Files) -> bool {
    let Ok(other) = String::from_str(alloc, "b") else {
        return false;
    };
    let Ok(text) = String::from_str(alloc, "x") else {
        return false;
    };
    let mut cache = CacheData::new(alloc);
    let Ok((before, after)) = sized_around_a_write(alloc, &mut cache, files, "a", other, text)
    else {
        return false;
    };
    let is_stored = before.how == How::Stored && before.output == 5;
    let is_hit = after.how == How::Hit && after.output == 5;
    is_stored && is_hit
}

#[test]
fn a_size_is_kept_while_other_files_change(rt: HostRuntime) {
    let alloc = rt.alloc();
    let mut files = Files::new(alloc);
    assert!(rt; is_put(alloc, &mut files, "a", "hello"));
    assert!(rt; is_kept(alloc, &mut files));
}
