//! The texts that a script keeps, and their commands.
ghost use Rattle.std.specs.Prelude.{◌≡◌, OnOk, IsOkUnless};
ghost use Rattle.wasmi_script_lib.specs.inner.Sessions.{AddsReply};
ghost use Rattle.wasmi_script_lib.specs.States.{empty, reply_to, state_after};
ghost use Rattle.wasmi_script_lib.specs.Requests as request;

use crate::reply::reply_error;
use std::alloc::{AllocError, Allocator};
use wasmi_arena::{ArenaError, MAX_LEN, StableArena, StableVec};
use wasmi_collections::arena::DedupArena;
use wasmi_collections::laws::texts_handed_in;
use wasmi_collections::string_interner::{StringInterner, Sym};

// The texts that a script keeps.
//
// Each command adds its reply to `replies`, and ends the script if there is no memory.
#[derive(Drop)]
pub(crate) struct ScriptTexts<A: Allocator> {
    // proof: first, since behind the arena it makes a goal on sizes too long to search.
    alloc: A,
    arena: StableArena<usize, String<A>, A>,
    interner: StringInterner<A>,
    dedup: DedupArena<usize, String<A>, A>,
}

impl<A: Allocator> ScriptTexts<A> {
    ghost use Rattle.wasmi_script_lib.specs.inner.Sessions.{with_texts};

    pub(crate) fn new(alloc: A) -> Self
    where
        A: Copy,
        ensures { with_texts result ≡ empty }
    {
        ScriptTexts {
            alloc,
            arena: StableArena::new(alloc),
            interner: StringInterner::new(alloc),
            dedup: DedupArena::new(alloc),
        }
    }

    // `a TEXT`: keeps a text, and replies its key. Without a key the text isn't kept.
    pub(crate) fn alloc<B: Allocator>(
        &mut self,
        text: &str,
        replies: &mut String<B>,
    ) -> Result<(), ArenaError>
    where
        A: Copy,
        ensures state { OnOk result (with_texts self.new ≡ state_after (with_texts self.old) (request.Alloc text.now)) }
        ensures reply { OnOk result (AddsReply replies.old replies.new
            (reply_to (with_texts self.old) (request.Alloc text.now))) }
        ensures errors { IsOkUnless result ArenaError.OutOfSystemMemory }
    {
        match self.arena.alloc(String::from_str(self.alloc, text)?) {
            Ok(key) => Ok(writeln!(replies, "key {key}")?),
            Err(error) => reply_error(replies, error),
        }
    }

    // `g N`: replies the text of a key.
    pub(crate) fn get<B: Allocator>(
        &self,
        number: usize,
        replies: &mut String<B>,
    ) -> Result<(), AllocError>
        ensures { OnOk result (AddsReply replies.old replies.new
            (reply_to (with_texts self.now) (request.Get number))) }
    {
        match self.arena.get(number) {
            Ok(text) => writeln!(replies, "text {text}"),
            Err(error) => writeln!(replies, "error {}", error.text()),
        }
    }

    // `p N`: replies the bucket and the slot of an index.
    pub(crate) fn place<B: Allocator>(
        &self,
        index: usize,
        replies: &mut String<B>,
    ) -> Result<(), AllocError>
        ensures { OnOk result (AddsReply replies.old replies.new
            (reply_to (with_texts self.now) (request.Place index))) }
    {
        if index < MAX_LEN {
            let (bucket, slot) = StableVec::<String>::place(index);
            writeln!(replies, "place {bucket} {slot}")
        } else {
            writeln!(replies, "none")
        }
    }

    // `n`: replies how much is kept.
    pub(crate) fn count<B: Allocator>(&self, replies: &mut String<B>) -> Result<(), AllocError>
        ensures { OnOk result (AddsReply replies.old replies.new
            (reply_to (with_texts self.now) request.Count)) }
    {
        let kept = self.arena.len();
        let deduped = self.dedup.len();
        let interned = self.interner.len();
        let slots = self.arena.items().slots();
        writeln!(replies, "counts {kept} {deduped} {interned} {slots}")
    }

    // `d TEXT`: keeps a text unless an equal one is kept, and replies the key of the one that is.
    pub(crate) fn dedup<B: Allocator>(
        &mut self,
        text: &str,
        replies: &mut String<B>,
    ) -> Result<(), ArenaError>
    where
        A: Copy,
        ensures state { OnOk result (with_texts self.new ≡ state_after (with_texts self.old) (request.Dedup text.now)) }
        ensures reply { OnOk result (AddsReply replies.old replies.new
            (reply_to (with_texts self.old) (request.Dedup text.now))) }
        ensures errors { IsOkUnless result ArenaError.OutOfSystemMemory }
    {
        // proof: a new text goes to the end.
        texts_handed_in::<usize, A>();
        match self.dedup.alloc_str(self.alloc, text) {
            Ok(key) => Ok(writeln!(replies, "key {key}")?),
            Err(error) => reply_error(replies, error),
        }
    }

    // `i TEXT`: interns a text, and replies its symbol.
    pub(crate) fn intern<B: Allocator>(
        &mut self,
        text: &str,
        replies: &mut String<B>,
    ) -> Result<(), ArenaError>
    where
        A: Clone,
        ensures state { OnOk result (with_texts self.new ≡ state_after (with_texts self.old) (request.Intern text.now)) }
        ensures reply { OnOk result (AddsReply replies.old replies.new
            (reply_to (with_texts self.old) (request.Intern text.now))) }
        ensures errors { IsOkUnless result ArenaError.OutOfSystemMemory }
    {
        match self.interner.get_or_intern(text) {
            Ok(symbol) => Ok(writeln!(replies, "sym {symbol}")?),
            Err(error) => reply_error(replies, error),
        }
    }

    // `r N`: replies the text of a symbol.
    pub(crate) fn resolve<B: Allocator>(
        &self,
        symbol: usize,
        replies: &mut String<B>,
    ) -> Result<(), AllocError>
        ensures { OnOk result (AddsReply replies.old replies.new
            (reply_to (with_texts self.now) (request.Resolve symbol))) }
    {
        let Ok(number) = u32::try_from(symbol) else {
            return writeln!(replies, "none");
        };
        match self.interner.resolve(Sym::from_u32(number)) {
            Some(text) => writeln!(replies, "text {text}"),
            None => writeln!(replies, "none"),
        }
    }
}
