//! Texts, names, sets and paths as values.

ghost use Rattle.std.specs.Prelude.{◌≡◌, ◌∷◌, [], ◌<◌, ◌≤◌, ℕ, All, OnOk, decimal, length, map, slice_index};
ghost use Rattle.mixed_graph.specs.Vocabulary.{has, Within};
ghost use Rattle.json.specs.Json.{string};
ghost use Rattle.answer_json.specs.Progress.{with_value};
ghost use Rattle.answer_json.specs.Values.{text_json, bytes_json, texts_json, vertex_json, vertices_json, pair_json, pairs_json, marks_json, set_json, sets_json, path_json, mark_word};

use crate::object::Object;
use crate::places::front;
use m_separation::{Mark, OpenPath};
use mixed_graph::{Names, Text, VSet};
use std::alloc::AllocError;

impl Object {
    /// Bytes: a text where they are UTF-8, else the list of their numbers.
    pub fn text(&mut self, bytes: &[u8]) -> Result<(), AllocError>
        ensures { OnOk result (self.new ≡ with_value (text_json bytes.now) self.old) }
    {
        match str::from_utf8(bytes) {
            Ok(text) => self.string(text),
            Err(_) => self.numbers(bytes),
        }
    }

    /// The list of the bytes' numbers.
    fn numbers(&mut self, bytes: &[u8]) -> Result<(), AllocError>
        ensures { OnOk result (self.new ≡ with_value (bytes_json bytes.now) self.old) }
    {
        self.begin_array()?;
        for byte in bytes {
            self.number(u64::from(*byte))?;
        }
        self.end_array()?;
        Ok(())
    }

    /// A number as a text of its digits.
    pub fn digits(&mut self, n: u64) -> Result<(), AllocError>
        ensures { OnOk result (self.new ≡ with_value (string (decimal n)) self.old) }
    {
        let text = format!(in self.alloc(); "{n}")?;
        self.string(text.as_str())
    }

    /// A list of texts.
    pub fn texts(&mut self, texts: &Vec<Text>) -> Result<(), AllocError>
        ensures { OnOk result (self.new ≡ with_value (texts_json texts.now.items) self.old) }
    {
        self.begin_array()?;
        for text in texts {
            self.text(text.bytes())?;
        }
        self.end_array()?;
        Ok(())
    }

    /// A list of two texts.
    pub fn two_texts(&mut self, a: &[u8], b: &[u8]) -> Result<(), AllocError>
        ensures { OnOk result (self.new ≡ with_value (texts_json (a.now ∷ b.now ∷ [])) self.old) }
    {
        self.begin_array()?;
        self.text(a)?;
        self.text(b)?;
        self.end_array()?;
        Ok(())
    }

    /// The name of vertex v.
    pub fn vertex(&mut self, names: &Names, v: u8) -> Result<(), AllocError>
        ensures { OnOk result (self.new ≡ with_value (vertex_json names.now v) self.old) }
    {
        self.text(names.name(v))
    }

    /// The names of vertices, in their order.
    pub fn vertices(&mut self, names: &Names, vertices: &[u8]) -> Result<(), AllocError>
        ensures { OnOk result (self.new ≡ with_value (vertices_json names.now vertices.now) self.old) }
    {
        self.begin_array()?;
        for v in vertices {
            self.vertex(names, *v)?;
        }
        self.end_array()?;
        Ok(())
    }

    /// A pair of vertices.
    pub fn pair(&mut self, names: &Names, a: u8, b: u8) -> Result<(), AllocError>
        ensures { OnOk result (self.new ≡ with_value (pair_json names.now (a, b)) self.old) }
    {
        self.begin_array()?;
        self.vertex(names, a)?;
        self.vertex(names, b)?;
        self.end_array()?;
        Ok(())
    }

    /// Pairs of vertices, in their order.
    pub fn pairs(&mut self, names: &Names, pairs: &[(u8, u8)]) -> Result<(), AllocError>
        ensures { OnOk result (self.new ≡ with_value (pairs_json names.now pairs.now) self.old) }
    {
        self.begin_array()?;
        for pair in pairs {
            self.pair(names, pair.0, pair.1)?;
        }
        self.end_array()?;
        Ok(())
    }

    /// The names of a set, in index order.
    pub fn set(&mut self, names: &Names, set: VSet) -> Result<(), AllocError>
        ensures { OnOk result (self.new ≡ with_value (set_json names.now set.bits) self.old) }
    {
        let list = set.members(self.alloc())?;
        self.vertices(names, list.as_slice())
    }

    /// Sets, in their order.
    pub fn sets(&mut self, names: &Names, sets: &[VSet]) -> Result<(), AllocError>
        ensures { OnOk result (self.new ≡ with_value (sets_json names.now (map (λ set. set.bits) sets.now)) self.old) }
    {
        self.begin_array()?;
        for set in sets {
            self.set(names, *set)?;
        }
        self.end_array()?;
        Ok(())
    }

    /// The marks of a path, in their order.
    fn marks(&mut self, marks: &[Mark]) -> Result<(), AllocError>
        ensures { OnOk result (self.new ≡ with_value (marks_json marks.now) self.old) }
    {
        self.begin_array()?;
        for mark in marks {
            self.string(word_of(*mark))?;
        }
        self.end_array()?;
        Ok(())
    }

    /// A path: its vertices, and the marks between them.
    pub fn path(&mut self, names: &Names, path: &OpenPath) -> Result<(), AllocError>
        ensures { OnOk result (self.new ≡ with_value (path_json names.now path.now.vertices path.now.marks path.now.count) self.old) }
    {
        let count = path.count as usize;
        self.begin_object()?;
        self.key("vertices")?;
        self.vertices(names, front(&path.vertices, count))?;
        self.key("marks")?;
        self.marks(front(&path.marks, count.saturating_sub(1)))?;
        self.end_object()?;
        Ok(())
    }
}

/// The word of a mark.
fn word_of(mark: Mark) -> &'static str
    ensures { result.now ≡ mark_word mark }
{
    match mark {
        Mark::Out => "->",
        Mark::Into => "<-",
        Mark::Both => "<->",
    }
}
