//! A reader of bytes from the front on.
ghost use Rattle.std.specs.Prelude.{◌≡◌, ◌≢◌, ◌↔◌, ◌++◌, ◌≤◌, ◌∷◌, ◌<◌, [], length, drop, take, MatchResult, IsTrue, slice_get};
ghost use Rattle.wasmi_module.specs.Texts.{Is};
ghost use Rattle.wasmi_module.specs.inner.Reading.{Reads};

use crate::error::{DecodeError, Expected};
use std::marker::Model;

// What is left of the bytes of a module. A contract sees the bytes that are left.
#[derive(Drop)]
pub(crate) struct Reader<'a> {
    // What is left.
    rest: &'a [u8],
    // How many bytes of the module are before the end of the rest.
    end: usize,
}

impl<'a> Model for Reader<'a> {
    ghost use Rattle.std.specs.Prelude.{ℕ, List, length, ◌≤◌};

    ghost Value = { List ℕ };

    ghost view = { λ reader. reader.rest.now };

    ghost invariant = { λ reader. length reader.rest.now ≤ reader.end };
}

impl<'a> Reader<'a> {
    // Reads all of the bytes.
    pub(crate) fn new(bytes: &'a [u8]) -> Self
        ensures { result ≡ bytes.now }
    {
        Reader {
            rest: bytes,
            end: bytes.len(),
        }
    }

    // How many bytes of the module were read.
    pub(crate) fn offset(&self) -> usize {
        self.end - self.rest.len()
    }

    // How many bytes are left.
    pub(crate) fn left(&self) -> usize {
        self.rest.len()
    }

    // The next byte.
    pub(crate) fn byte(&mut self) -> Result<u8, DecodeError>
        ensures { MatchResult result (λ byte. self.old ≡ byte ∷ self.new) (λ _. self.old ≡ []) }
    {
        match self.rest {
            [] => Err(Expected::Byte.at(self.offset())),
            [byte, rest @ ..] => {
                self.rest = rest;
                Ok(*byte)
            }
        }
    }

    // The next so many bytes.
    pub(crate) fn bytes(&mut self, len: usize) -> Result<&'a [u8], DecodeError>
        ensures { MatchResult result (λ bytes. (self.old ≡ bytes.now ++ self.new) × (length bytes.now ≡ len)) (λ _. length self.old < len) }
    {
        if self.rest.len() < len {
            return Err(Expected::Bytes.at(self.offset()));
        }
        let (front, rest) = self.rest.split_at(len);
        self.rest = rest;
        Ok(front)
    }

    // A reader of the next so many bytes.
    pub(crate) fn part(&mut self, len: usize) -> Result<Reader<'a>, DecodeError>
        ensures { MatchResult result (λ part. (self.old ≡ part ++ self.new) × (length part ≡ len)) (λ _. length self.old < len) }
    {
        if self.rest.len() < len {
            return Err(Expected::Bytes.at(self.offset()));
        }
        let (part, rest) = self.rest.split_at(len);
        self.rest = rest;
        Ok(Reader {
            rest: part,
            end: self.end - rest.len(),
        })
    }

    // Whether this byte is next.
    pub(crate) fn is_next(&self, byte: u8) -> bool
        ensures { IsTrue result ↔ slice_get self.now 0 ≡ Some byte }
    {
        self.rest.first() == Some(&byte)
    }

    // Fails with this error unless all was read.
    pub(crate) fn end(&self, expected: Expected) -> Result<(), DecodeError>
        ensures { MatchResult result (λ _. self.now ≡ []) (λ _. self.now ≢ []) }
    {
        self.require(self.rest.is_empty(), expected)
    }

    // Fails with this error unless this holds.
    pub(crate) fn require(&self, holds: bool, expected: Expected) -> Result<(), DecodeError>
        ensures { MatchResult result (λ _. IsTrue holds) (λ _. ¬ (IsTrue holds)) }
    {
        if holds {
            Ok(())
        } else {
            Err(expected.at(self.offset()))
        }
    }
}
