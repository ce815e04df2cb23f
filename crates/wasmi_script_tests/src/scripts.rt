//! Scripts: worked replies, texts and statuses of errors, long scripts.
use wasmi_script_lib::{ScriptError, answer};
use wasmi_vectors::assert_equal;

#[test]
fn replies(rt: HostRuntime) {
    let cases = [
        (
            "a \ng 0\n\ng\ng 00\np 4294967263\np 4294967264\nr 99999999999\n\
                g 18446744073709551616\na\n",
            "key 0\ntext \nbad line 3\nbad line 4\ntext \nplace 26 2147483647\nnone\nnone\n\
                bad line 9\nbad line 10\n",
        ),
        (
            "a x\na x\ng 1\ng 2\np 32\nn\nq",
            "key 0\nkey 1\ntext x\nerror encounteded out of bounds key\nplace 1 0\n\
                counts 2 0 0 32\nbad line 7\n",
        ),
        (
            "g 0\na\na \ng 0\ng 00\np 4294967263\np 4294967264\ng +0\n\
                g 18446744073709551616\ng 18446744073709551615",
            "error encounteded out of bounds key\nbad line 2\nkey 0\ntext \ntext \n\
                place 26 2147483647\nnone\nbad line 8\nbad line 9\n\
                error encounteded out of bounds key\n",
        ),
        ("a x\r\ng 0\r\ng 0", "key 0\nbad line 2\ntext x\r\n"),
        (
            "d x\nd y\nd x\nn\ni x\n",
            "key 0\nkey 1\nkey 0\ncounts 0 2 0 0\nsym 0\n",
        ),
        (
            "i x\ni y\ni x\nn\nr 0\nr 01\nr 2\nr 4294967295\nr 4294967296\nr +0\nr\n",
            "sym 0\nsym 1\nsym 0\ncounts 0 0 2 0\ntext x\ntext y\nnone\nnone\nnone\n\
                bad line 10\nbad line 11\n",
        ),
        (
            "d\ni\nd \ni \nr 0\na \ng 0\nd  \nn\n",
            "bad line 1\nbad line 2\nkey 0\nsym 0\ntext \nkey 0\ntext \nkey 1\n\
                counts 1 2 1 32\n",
        ),
        (
            "e ann user\ne bob user\ne ann group\nv 1 42\nv 1 7\nk 0 admin\nq 1\nq 2\n\
                k 2 admin\nk 5 admin\nq 5\nq\nn\ne x\nv 0 x\ne ann \n",
            "entity 0\nentity 1\nentity 2\nwas none\nwas 42\ndone\nis 7 bob admin\n\
                is none ann group\nerror item is already in the arena\n\
                error encounteded out of bounds key\nerror encounteded out of bounds key\n\
                bad line 12\ncounts 0 0 0 0\nbad line 14\nbad line 15\nentity 3\n",
        ),
        (
            "e a b c \nq 0\nk 0 \nq 00\ne  k\ne\ne \nv 0\nv 0 \nv 0 +1\nv 0 1 2\nk 0\nk  x\nk 0  x\n\
                q 0\nv 4294967296 1\nv 18446744073709551616 1\nv 0 18446744073709551615\n\
                k 4294967295 x\nk 4294967296 x\nq 4294967296\nq 18446744073709551616\nq 0 \nq 0",
            "entity 0\nis none a b c \ndone\nis none a \nbad line 5\nbad line 6\nbad line 7\nbad line 8\n\
                bad line 9\nbad line 10\nbad line 11\nbad line 12\nbad line 13\ndone\n\
                is none a  x\nerror encounteded out of bounds key\nbad line 17\nwas none\n\
                error encounteded out of bounds key\nerror encounteded out of bounds key\n\
                error encounteded out of bounds key\nbad line 22\nbad line 23\n\
                is 18446744073709551615 a  x\n",
        ),
    ];
    for (script, wanted) in cases {
        let replies = answer(rt.alloc(), script).expect(&rt, "");
        assert_equal!(rt; replies.as_str(), wanted);
    }
}

#[test]
fn errors_have_texts_and_statuses(rt: HostRuntime) {
    let cases = [
        (ScriptError::NoMemory, "out of memory", 1),
        (ScriptError::ReadFailed, "read failed", 1),
        (ScriptError::WriteFailed, "write failed", 1),
        (ScriptError::NotUtf8, "not UTF-8", 2),
    ];
    for (error, text, status) in cases {
        assert_equal!(rt; error.to_string(rt.alloc()).expect(&rt, "").as_str(), text);
        assert_equal!(rt; error.status(), status, at text);
    }
}

// 200,000 lines, and 17 MiB of replies.
#[test]
fn long_scripts(rt: HostRuntime) {
    let script = "n\n".repeat(rt.alloc(), 200_000).expect(&rt, "");
    let replies = answer(rt.alloc(), script.as_str()).expect(&rt, "");
    assert_equal!(rt; replies.lines().count(), 200_000);
    assert!(rt; replies.lines().all(|line| line == "counts 0 0 0 0"));
    let text = "0123456789abcdef"
        .repeat(rt.alloc(), 65_536)
        .expect(&rt, "");
    let reads = "\ng 0".repeat(rt.alloc(), 17).expect(&rt, "");
    let script = format!(in rt.alloc(); "a {text}{reads}").expect(&rt, "");
    let replies = answer(rt.alloc(), script.as_str()).expect(&rt, "");
    assert_equal!(rt; replies.len(), 6 + 17 * (6 + (1 << 20)));
}

// 5,000 entities of as many names and kinds. The property of the last comes first.
#[test]
fn many_entities(rt: HostRuntime) {
    let mut script = String::new(rt.alloc());
    for number in 0..5_000u32 {
        writeln!(script, "e name_{number} kind_{number}").expect(&rt, "");
    }
    writeln!(script, "v 4999 1").expect(&rt, "");
    for number in 0..5_000u32 {
        writeln!(script, "v {number} {number}\nq {number}").expect(&rt, "");
    }
    let replies = answer(rt.alloc(), &script).expect(&rt, "");
    assert_equal!(rt; replies.lines().count(), 15_001);
    assert!(rt; replies.lines().all(|line| !line.starts_with("error")));
    assert!(rt; replies.ends_with("\nwas 1\nis 4999 name_4999 kind_4999\n"));
}

// A name and a kind of 5,000 characters.
#[test]
fn long_names_and_kinds(rt: HostRuntime) {
    let long = "0123456789".repeat(rt.alloc(), 500).expect(&rt, "");
    let script = format!(in rt.alloc(); "e {long} {long}\nq 0\nv 0 7\nk 0 x{long}\nq 0");
    let wanted = format!(in rt.alloc();
        "entity 0\nis none {long} {long}\nwas none\ndone\nis 7 {long} x{long}\n"
    );
    let replies = answer(rt.alloc(), script.expect(&rt, "").as_str()).expect(&rt, "");
    assert_equal!(rt; replies.as_str(), wanted.expect(&rt, "").as_str());
}
