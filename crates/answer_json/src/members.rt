//! Members of an object: a key and its value.

ghost use Rattle.std.specs.Prelude.{◌≡◌, ◌∷◌, [], ◌<◌, ◌≤◌, ℕ, All, OnOk, decimal, length, slice_index};
ghost use Rattle.mixed_graph.specs.Vocabulary.{has, Within};
ghost use Rattle.json.specs.Json.{string, number};
ghost use Rattle.answer_json.specs.Progress.{with_member, with_members};
ghost use Rattle.answer_json.specs.Values.{text_json, texts_json, vertex_json, vertices_json, set_json, path_json, query_members};

use crate::object::Object;
use m_separation::OpenPath;
use mixed_graph::{Names, Text, VSet};
use std::alloc::AllocError;

impl Object {
    /// A member whose value is a word.
    pub fn word_at(&mut self, name: &str, word: &str) -> Result<(), AllocError>
        ensures { OnOk result (self.new ≡ with_member name.now (string word.now) self.old) }
    {
        self.key(name)?;
        self.string(word)
    }

    /// A member whose value is a number.
    pub fn number_at(&mut self, name: &str, n: u64) -> Result<(), AllocError>
        ensures { OnOk result (self.new ≡ with_member name.now (number (decimal n)) self.old) }
    {
        self.key(name)?;
        self.number(n)
    }

    /// A member whose value is a text.
    pub fn text_at(&mut self, name: &str, bytes: &[u8]) -> Result<(), AllocError>
        ensures { OnOk result (self.new ≡ with_member name.now (text_json bytes.now) self.old) }
    {
        self.key(name)?;
        self.text(bytes)
    }

    /// A member whose value is a list of texts.
    pub fn texts_at(&mut self, name: &str, texts: &Vec<Text>) -> Result<(), AllocError>
        ensures { OnOk result (self.new ≡ with_member name.now (texts_json texts.now.items) self.old) }
    {
        self.key(name)?;
        self.texts(texts)
    }

    /// A member whose value is the name of vertex v.
    pub fn vertex_at(&mut self, name: &str, names: &Names, v: u8) -> Result<(), AllocError>
        ensures { OnOk result (self.new ≡ with_member name.now (vertex_json names.now v) self.old) }
    {
        self.key(name)?;
        self.vertex(names, v)
    }

    /// A member whose value is a list of vertices.
    pub fn vertices_at(
        &mut self,
        name: &str,
        names: &Names,
        vertices: &[u8],
    ) -> Result<(), AllocError>
        ensures { OnOk result (self.new ≡ with_member name.now (vertices_json names.now vertices.now) self.old) }
    {
        self.key(name)?;
        self.vertices(names, vertices)
    }

    /// A member whose value is a set.
    pub fn set_at(&mut self, name: &str, names: &Names, set: VSet) -> Result<(), AllocError>
        ensures { OnOk result (self.new ≡ with_member name.now (set_json names.now set.bits) self.old) }
    {
        self.key(name)?;
        self.set(names, set)
    }

    /// The members x, y and given.
    pub fn query(&mut self, names: &Names, x: VSet, y: VSet, given: VSet) -> Result<(), AllocError>
        ensures { OnOk result (self.new ≡ with_members (query_members names.now x.bits y.bits given.bits) self.old) }
    {
        self.set_at("x", names, x)?;
        self.set_at("y", names, y)?;
        self.set_at("given", names, given)?;
        Ok(())
    }

    /// A member whose value is a path.
    pub fn path_at(&mut self, name: &str, names: &Names, path: &OpenPath) -> Result<(), AllocError>
        ensures { OnOk result (self.new ≡ with_member name.now (path_json names.now path.now.vertices path.now.marks path.now.count) self.old) }
    {
        self.key(name)?;
        self.path(names, path)
    }
}
