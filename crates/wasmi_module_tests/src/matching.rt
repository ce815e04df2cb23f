//! Whether an export is what an import asks for.
use wasmi_module::{GlobalType, Limits, MemoryType, RefType, TableType, ValType};
use wasmi_vectors::assert_equal;

// Limits asked for, limits given, and whether those will do.
#[test]
fn limits_both_ways(rt: HostRuntime) {
    let cases = [
        ((2, None), (2, None), true),
        ((2, None), (3, Some(3)), true),
        ((2, None), (1, None), false),
        ((2, Some(4)), (2, Some(4)), true),
        ((2, Some(4)), (3, Some(3)), true),
        ((2, Some(4)), (2, Some(5)), false),
        ((2, Some(4)), (2, None), false),
        ((2, Some(4)), (1, Some(4)), false),
    ];
    for ((min, max), (given_min, given_max), wanted) in cases {
        let asked = Limits { min, max };
        let given = Limits {
            min: given_min,
            max: given_max,
        };
        let memory = MemoryType { limits: asked };
        let admitted = memory.admits(&MemoryType { limits: given });
        assert_equal!(rt; (asked.admits(&given), admitted), (wanted, wanted), at (asked, given));
    }
}

#[test]
fn elements_values_and_whether_they_are_written(rt: HostRuntime) {
    let limits = Limits { min: 0, max: None };
    let functions = TableType {
        element: RefType::FuncRef,
        limits,
    };
    let externs = TableType {
        element: RefType::ExternRef,
        limits,
    };
    assert_equal!(rt; (functions.admits(&functions), functions.admits(&externs)), (true, false));
    let asked = GlobalType {
        value: ValType::I32,
        mutable: true,
    };
    let read_only = GlobalType {
        value: ValType::I32,
        mutable: false,
    };
    let wide = GlobalType {
        value: ValType::I64,
        mutable: true,
    };
    let admitted = (
        asked.admits(&asked),
        asked.admits(&read_only),
        asked.admits(&wide),
    );
    assert_equal!(rt; admitted, (true, false, false));
}
