//! What is decoded of modules that are well-formed.
use crate::bytes::RARE;
use crate::or_abort::OrAbort;
use wasmi_module::decode;
use wasmi_vectors::assert_equal;

// Names, types, limits, first values and kinds, as `wasm-objdump -x` of wabt lists them.
#[test]
fn a_module_of_each_kind_of_item(rt: HostRuntime) {
    let module = decode(rt.alloc(), RARE).or_abort(&rt);
    let types = format!(in rt.alloc(); "{:?}", module.types).or_abort(&rt);
    assert_equal!(rt; types.as_str(), "[FuncType { params: [I64, F32], results: [I32, F64] }, \
        FuncType { params: [I32, I32], results: [] }, \
        FuncType { params: [ExternRef, FuncRef], results: [FuncRef] }]");
    let imports = format!(in rt.alloc(); "{:?}", module.imports).or_abort(&rt);
    assert_equal!(rt; imports.as_str(), "[Import { module: \"env\", field: \"log\", item: Func(1) }, \
        Import { module: \"env\", field: \"memory\", \
        item: Memory(MemoryType { limits: Limits { min: 2, max: Some(16) } }) }, \
        Import { module: \"host\", field: \"slots\", \
        item: Table(TableType { element: ExternRef, limits: Limits { min: 0, max: Some(8) } }) }, \
        Import { module: \"host\", field: \"base\", \
        item: Global(GlobalType { value: I32, mutable: false }) }, \
        Import { module: \"host\", field: \"wide\", \
        item: Global(GlobalType { value: V128, mutable: false }) }]");
    let own = format!(in rt.alloc();
        "{:?} {:?} {:?}",
        module.functions, module.tables, module.memories
    )
    .or_abort(&rt);
    assert_equal!(rt; own.as_str(), "[0, 2] [TableType { element: FuncRef, limits: Limits { min: 3, max: None } }] []");
}

#[test]
fn first_values_of_globals(rt: HostRuntime) {
    let module = decode(rt.alloc(), RARE).or_abort(&rt);
    let mut text = String::new(rt.alloc());
    for global in &module.globals {
        writeln!(
            text,
            "{:?} {} {:?}",
            global.ty.value, global.ty.mutable, global.init
        )
        .or_abort(&rt);
    }
    assert_equal!(rt; text.as_str(), "I32 false I32(-1)\nI64 true I64(9223372036854775807)\n\
        F32 false F32([0, 0, 192, 63])\nF64 false F64([1, 0, 0, 0, 0, 0, 0, 128])\n\
        V128 false V128([1, 0, 0, 0, 2, 0, 0, 0, 3, 0, 0, 0, 4, 0, 0, 0])\n\
        ExternRef false RefNull(ExternRef)\nFuncRef false RefFunc(1)\nI32 false GlobalGet(0)\n");
}

#[test]
fn exports_by_name_kind_and_index(rt: HostRuntime) {
    let module = decode(rt.alloc(), RARE).or_abort(&rt);
    let mut text = String::new(rt.alloc());
    for export in &module.exports {
        writeln!(text, "{} {:?} {}", export.name, export.kind, export.index).or_abort(&rt);
    }
    assert_equal!(rt; text.as_str(), "log Func 0\nmemory Memory 0\nslots Table 0\nown Table 1\nbase Global 0\n\
        pair Func 1\nrefs Func 2\nb Global 3\n\u{e9}t\u{e9} Func 1\n Global 1\n");
}

// Each is a module of one memory, or of nothing.
#[test]
fn other_writings(rt: HostRuntime) {
    let cases = [
        (b"\0asm\x01\0\0\0".as_slice(), 0),
        // Custom sections before, between and behind the others.
        (
            b"\0asm\x01\0\0\0\0\x02\x01a\x05\x03\x01\0\x02\0\0\0\0\x0a\x01\0\0\x01\xff".as_slice(),
            1,
        ),
        // Before each of the others and behind them all.
        (
            b"\0asm\x01\0\0\0\0\x02\x01a\x01\x01\0\0\x02\x01a\x02\x01\0\0\x02\x01a\x03\x01\0\
              \0\x02\x01a\x04\x01\0\0\x02\x01a\x05\x03\x01\0\x02\0\x02\x01a\x06\x01\0\0\x02\x01a\x07\x01\0\
              \0\x02\x01a\x08\x01\0\0\x02\x01a\x09\x01\0\0\x02\x01a\x0c\x01\0\0\x02\x01a\x0a\x01\0\
              \0\x02\x01a\x0b\x01\0\0\x02\x01a"
                .as_slice(),
            1,
        ),
        // A length, a count and a number of more bytes than they need.
        (
            b"\0asm\x01\0\0\0\x05\x8b\x80\x80\x80\0\x81\x80\x80\x80\0\0\x82\x80\x80\x80\0".as_slice(),
            1,
        ),
        // A section without items, and one that is stepped over whatever is in it.
        (
            b"\0asm\x01\0\0\0\x01\x01\0\x05\x03\x01\0\x02\x08\x02\xff\xff\x0b\0".as_slice(),
            1,
        ),
        // The count of data comes before the code.
        (
            b"\0asm\x01\0\0\0\x05\x03\x01\0\x02\x09\0\x0c\x01\0\x0a\x01\0\x0b\x01\0".as_slice(),
            1,
        ),
    ];
    for (bytes, memories) in cases {
        let module = decode(rt.alloc(), bytes).or_abort(&rt);
        assert_equal!(rt; module.memories.len(), memories, at bytes);
        for memory in &module.memories {
            assert_equal!(rt; memory.limits.min, 2, at bytes);
        }
    }
}
