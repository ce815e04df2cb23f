//! The name of the module in a file.
ghost use Rattle.wasmi_link_lib.specs.Paths.{IsFileName, IsModuleName, IsStem};

/// The name of the module in a file: that of the file, without the folder and without the ending `.wasm`.
/// Time is linear in the path, no allocation.
pub fn module_name(path: &str) -> &str
    ensures { IsModuleName path.now result.now }
{
    stem(file_name(path))
}

// What a path has behind its last slash.
fn file_name(path: &str) -> &str
    ensures { IsFileName path.now result.now }
{
    match path.rsplit_once('/') {
        Some((_, file)) => file,
        None => path,
    }
}

// A file's name without `.wasm` at its end.
fn stem(file: &str) -> &str
    ensures { IsStem file.now result.now }
{
    match file.strip_suffix(".wasm") {
        Some(stem) => stem,
        None => file,
    }
}
