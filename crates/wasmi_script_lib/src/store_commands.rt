//! The commands of a script to its store of entities.
//!
//! Each adds its reply to `replies`, and ends the script if there is no memory.
ghost use Rattle.std.specs.Prelude.{◌≡◌, OnOk, IsOkUnless};
ghost use Rattle.wasmi_script_lib.specs.inner.Sessions.{AddsReply, with_store};
ghost use Rattle.wasmi_script_lib.specs.States.{reply_to, state_after};
ghost use Rattle.wasmi_script_lib.specs.Requests as request;

use crate::reply::reply_error;
use crate::store::EntityStore;
use std::alloc::Allocator;
use wasmi_arena::{ArenaError, ArenaKey};

impl<A: Allocator> EntityStore<A> {
    // `e NAME KIND`: adds an entity, and replies its key. Without a key it isn't added.
    pub(crate) fn serve_add<B: Allocator>(
        &mut self,
        name: &str,
        kind: &str,
        replies: &mut String<B>,
    ) -> Result<(), ArenaError>
    where
        A: Copy,
        ensures state { OnOk result (with_store self.new
            ≡ state_after (with_store self.old) (request.AddEntity name.now kind.now)) }
        ensures reply { OnOk result (AddsReply replies.old replies.new
            (reply_to (with_store self.old) (request.AddEntity name.now kind.now))) }
        ensures errors { IsOkUnless result ArenaError.OutOfSystemMemory }
    {
        match self.add(name, kind) {
            Ok(key) => Ok(writeln!(replies, "entity {}", key.into_usize())?),
            Err(error) => reply_error(replies, error),
        }
    }

    // `v N M`: gives an entity a property, and replies the one that it had.
    pub(crate) fn serve_set<B: Allocator>(
        &mut self,
        number: usize,
        property: usize,
        replies: &mut String<B>,
    ) -> Result<(), ArenaError>
        ensures state { OnOk result (with_store self.new
            ≡ state_after (with_store self.old) (request.SetProperty number property)) }
        ensures reply { OnOk result (AddsReply replies.old replies.new
            (reply_to (with_store self.old) (request.SetProperty number property))) }
        ensures errors { IsOkUnless result ArenaError.OutOfSystemMemory }
    {
        let Some(key) = self.key(number) else {
            return reply_error(replies, ArenaError::KeyOutOfBounds);
        };
        match self.set(key, property as u64) {
            Ok(Some(old)) => Ok(writeln!(replies, "was {old}")?),
            Ok(None) => Ok(writeln!(replies, "was none")?),
            Err(error) => reply_error(replies, error),
        }
    }

    // `k N KIND`: renames the kind of an entity.
    pub(crate) fn serve_rename_kind<B: Allocator>(
        &mut self,
        number: usize,
        kind: &str,
        replies: &mut String<B>,
    ) -> Result<(), ArenaError>
    where
        A: Copy,
        ensures state { OnOk result (with_store self.new
            ≡ state_after (with_store self.old) (request.RenameKind number kind.now)) }
        ensures reply { OnOk result (AddsReply replies.old replies.new
            (reply_to (with_store self.old) (request.RenameKind number kind.now))) }
        ensures errors { IsOkUnless result ArenaError.OutOfSystemMemory }
    {
        let Some(key) = self.key(number) else {
            return reply_error(replies, ArenaError::KeyOutOfBounds);
        };
        match self.rename_kind(key, kind) {
            Ok(()) => Ok(writeln!(replies, "done")?),
            Err(error) => reply_error(replies, error),
        }
    }

    // `q N`: replies the property, the name and the kind of an entity.
    pub(crate) fn serve_get<B: Allocator>(
        &self,
        number: usize,
        replies: &mut String<B>,
    ) -> Result<(), ArenaError>
        ensures reply { OnOk result (AddsReply replies.old replies.new
            (reply_to (with_store self.now) (request.GetEntity number))) }
        ensures errors { IsOkUnless result ArenaError.OutOfSystemMemory }
    {
        let Some(key) = self.key(number) else {
            return reply_error(replies, ArenaError::KeyOutOfBounds);
        };
        match self.get(key) {
            Ok((name, kind, Some(property))) => Ok(writeln!(
                replies,
                "is {property} {name} {kind}"
            )?),
            Ok((name, kind, None)) => Ok(writeln!(replies, "is none {name} {kind}")?),
            Err(error) => reply_error(replies, error),
        }
    }
}
