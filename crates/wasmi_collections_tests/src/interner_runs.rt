//! Lists of commands to an interner: worked ones, and each request refused in turn.

use std::alloc::{AllocError, Global};
use wasmi_arena::ArenaError;
use wasmi_collections::StringInterner;
use wasmi_collections::run::{InternCommand, InternReply, run_interner};
use wasmi_collections::string_interner::{InternHint, Sym};
use wasmi_vectors::assert_equal;
use wasmi_vectors::logged::Logged;
use wasmi_vectors::observed::Log;

const NAMES: [&str; 10] = [
    "memory", "table", "", "global", "func", "start", "elem", "a", "data", "é",
];

fn commands(alloc: Global) -> Result<Vec<InternCommand>, AllocError> {
    let b = String::from_str(alloc, "b")?;
    let a = String::from_str(alloc, "a")?;
    let again = String::from_str(alloc, "b")?;
    let found = String::from_str(alloc, "a")?;
    let absent = String::from_str(alloc, "c")?;
    let commands = Vec::from_array(
        alloc,
        [
            InternCommand::Intern(b, InternHint::LikelyNew),
            InternCommand::Intern(a, InternHint::LikelyExists),
            InternCommand::Intern(again, InternHint::LikelyNew),
            InternCommand::Find(found),
            InternCommand::Find(absent),
            InternCommand::Len,
            InternCommand::Intern(String::new(alloc), InternHint::None),
        ],
    )?;
    Ok(commands)
}

#[test]
fn a_run_replies_as_the_table_says(rt: HostRuntime) {
    let mut interner = StringInterner::new(rt.alloc());
    let commands = commands(rt.alloc()).expect(&rt, "");
    let replies = run_interner(rt.alloc(), &mut interner, commands).expect(&rt, "");
    let wanted = [
        InternReply::Sym(Sym::from_u32(0)),
        InternReply::Sym(Sym::from_u32(1)),
        InternReply::Sym(Sym::from_u32(0)),
        InternReply::Found(Some(Sym::from_u32(1))),
        InternReply::Found(None),
        InternReply::Len(2),
        InternReply::Sym(Sym::from_u32(2)),
    ];
    assert_equal!(rt; (replies.as_slice(), interner.len()), (wanted.as_slice(), 3));
    drop(interner);
}

// Commands that hand in each name.
fn hand_ins<'l>(
    alloc: Global,
    heap: Logged<'l>,
) -> Result<Vec<InternCommand, Logged<'l>>, AllocError> {
    let mut commands = Vec::new(heap);
    for name in NAMES {
        let text = String::from_str(alloc, name)?;
        commands.push(InternCommand::Intern(text, InternHint::None))?;
    }
    Ok(commands)
}

// How many names were refused of a run that interned them all, of which each other one has its symbol; nothing where a
// reply is another one.
fn refused_of(
    interner: &StringInterner<Logged<'_>>,
    replies: Vec<InternReply, Logged<'_>>,
) -> Option<usize> {
    let (mut next, mut refused) = (0u32, 0usize);
    for (name, reply) in NAMES.into_iter().zip(replies) {
        let wanted = Sym::from_u32(next);
        let symbol = interner.get(name);
        if reply == InternReply::Sym(wanted) && symbol == Some(wanted) {
            next = next.wrapping_add(1);
        } else if reply == InternReply::Refused(ArenaError::OutOfSystemMemory) && symbol.is_none() {
            refused = refused.wrapping_add(1);
        } else {
            return None;
        }
    }
    (interner.len() == next as usize).then_some(refused)
}

// A run that hands in each name.
fn run<'l>(
    alloc: Global,
    log: &'l Log,
    interner: &mut StringInterner<Logged<'l>>,
    refused: u64,
) -> Result<Vec<InternReply, Logged<'l>>, ArenaError> {
    let handle = Logged::new(alloc, log);
    let commands = hand_ins(alloc, handle)?;
    log.refuse_once(refused);
    run_interner(handle, interner, commands)
}

// Whether one was refused at most.
fn are_few(refused: Option<usize>) -> bool {
    match refused {
        Some(refused) => refused < 2,
        None => false,
    }
}

// Each request of a run refused in turn. The first is for the replies.
#[test]
fn a_run_goes_on_after_a_refusal(rt: HostRuntime) {
    for nth in 1..20 {
        let log = Log::new();
        let mut interner = StringInterner::new(Logged::new(rt.alloc(), &log));
        match run(rt.alloc(), &log, &mut interner, nth) {
            Ok(replies) => {
                assert_equal!(rt; are_few(refused_of(&interner, replies)), true, at nth);
            }
            Err(error) => {
                assert_equal!(rt; (nth, error, interner.len()), (1, ArenaError::OutOfSystemMemory, 0));
                let replies = run(rt.alloc(), &log, &mut interner, 0).expect(&rt, "");
                assert_equal!(rt; refused_of(&interner, replies), Some(0));
            }
        }
        for name in NAMES {
            interner.get_or_intern(name).expect(&rt, "");
        }
        assert_equal!(rt; interner.len(), 10, at nth);
        drop(interner);
        assert_equal!(rt; log.amiss(), 0);
    }
}
