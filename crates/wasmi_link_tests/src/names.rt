//! The names of modules in files.
use wasmi_link_lib::module_name;
use wasmi_vectors::assert_equal;

#[test]
fn files_without_their_folders_and_endings(rt: HostRuntime) {
    let cases = [
        ("env.wasm", "env"),
        ("libs/env.wasm", "env"),
        ("/libs.wasm/more/env", "env"),
        ("env.wasm.wasm", "env.wasm"),
        ("env.wat", "env.wat"),
        ("env.WASM", "env.WASM"),
        ("wasm", "wasm"),
        (".wasm", ""),
        ("libs/", ""),
        ("libs.wasm/", ""),
        ("", ""),
        ("été/ñ.wasm", "ñ"),
    ];
    for (path, name) in cases {
        assert_equal!(rt; module_name(path), name, at path);
    }
}
