//! An object that is written token by token.

ghost use Rattle.std.specs.Prelude.{◌≡◌, IfOk, OnOk, [], decimal};
ghost use Rattle.std.specs.Str.{IsUtf8};
ghost use Rattle.json.specs.Json.{string, number, boolean, null};
ghost use Rattle.answer_json.specs.Progress.{nothing, items, members, with_value, with_key, with_member, ended_array, ended_object, IsWhole, value_of, json_line};

use json::Writer;
use std::alloc::{AllocError, Global};
use std::marker::Model;

/// An object that is being written: a clause sees how far it is.
#[derive(Drop)]
pub struct Object {
    alloc: Global,
    writer: Writer,
}

impl Model for Object {
    ghost use Rattle.std.specs.Prelude.{◌≡◌, []};
    ghost use Rattle.answer_json.specs.Progress.{Progress, progress_of};
    ghost use Rattle.answer_json.specs.Codes.{progress_code};

    ghost Value = { Progress };

    ghost coded = { progress_code };

    ghost view = { λ o. progress_of o.writer.tokens };

    ghost invariant = { λ o. o.writer.before ≡ [] };
}

impl Object {
    /// An object that has no member yet.
    pub fn new(alloc: Global) -> Result<Object, AllocError>
        ensures { IfOk result (λ o. o ≡ members nothing []) }
    {
        let mut object = Object {
            alloc,
            writer: Writer::new(Vec::new(alloc)),
        };
        object.begin_object()?;
        Ok(object)
    }

    /// Where it gets memory: the one handle that there is.
    pub fn alloc(&self) -> Global
        ensures { (handle : Global) → result ≡ handle }
    {
        self.alloc
    }

    /// Begins an object as a value.
    pub fn begin_object(&mut self) -> Result<(), AllocError>
        ensures { OnOk result (self.new ≡ members self.old []) }
    {
        self.writer.begin_object()
    }

    /// Ends it.
    pub fn end_object(&mut self) -> Result<(), AllocError>
        ensures { OnOk result (self.new ≡ ended_object self.old) }
    {
        self.writer.end_object()
    }

    /// Begins an array as a value.
    pub fn begin_array(&mut self) -> Result<(), AllocError>
        ensures { OnOk result (self.new ≡ items self.old []) }
    {
        self.writer.begin_array()
    }

    /// Ends it.
    pub fn end_array(&mut self) -> Result<(), AllocError>
        ensures { OnOk result (self.new ≡ ended_array self.old) }
    {
        self.writer.end_array()
    }

    /// The key of a member, whose value is to follow.
    pub fn key(&mut self, name: &str) -> Result<(), AllocError>
        ensures { OnOk result (self.new ≡ with_key name.now self.old) }
    {
        self.writer.key(name)
    }

    /// A text.
    pub fn string(&mut self, text: &str) -> Result<(), AllocError>
        ensures { OnOk result (self.new ≡ with_value (string text.now) self.old) }
    {
        self.writer.string(text)
    }

    /// A number.
    pub fn number(&mut self, n: u64) -> Result<(), AllocError>
        ensures { OnOk result (self.new ≡ with_value (number (decimal n)) self.old) }
    {
        self.writer.u64(n)
    }

    /// `true` or `false`.
    pub fn boolean(&mut self, value: bool) -> Result<(), AllocError>
        ensures { OnOk result (self.new ≡ with_value (boolean value) self.old) }
    {
        self.writer.boolean(value)
    }

    /// What isn't there.
    pub fn null(&mut self) -> Result<(), AllocError>
        ensures { OnOk result (self.new ≡ with_value null self.old) }
    {
        self.writer.null()
    }

    /// Ends the object, and gives it as a line.
    pub fn line(self) -> Result<Vec<u8>, AllocError>
        requires { IsWhole (ended_object self) }
        ensures text { IfOk result (λ v. v.items ≡ json_line (value_of (ended_object self))) }
        ensures utf8 { IfOk result (λ v. IsUtf8 v.items) }
    {
        let mut object = self;
        object.end_object()?;
        let mut text = object.writer.into_inner();
        text.push(b'\n')?;
        Ok(text)
    }
}
