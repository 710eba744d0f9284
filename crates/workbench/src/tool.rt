// The tools by their names, each with what its words ask.
ghost use Rattle.std.specs.Prelude.{◌^◌, ◌<◌, IfSome, length};
ghost use Rattle.workbench.specs.Asked.{MayRun};

use crate::asked::Asked;
use crate::attributes::{Between, attribute_lines};
use crate::expansions::expand_text;
use crate::scopes::scope_answers;
use crate::values::if_values;
use sparse_outside::Words;
use std::alloc::{AllocError, Global};
use type_workbench::{constant_answers, type_answers};

/// A call of a library over a text.
#[derive(Clone, Copy)]
pub enum Tool<'w> {
    /// The values of lines, each taken as what stands behind an `#if`.
    IfValue,
    /// The answers to commands on scopes.
    Scopes,
    /// The answers to commands on types.
    Types,
    /// The constants of nodes that commands make.
    Constants,
    /// What lists of attributes come to, or the changes of context statements.
    Attributes(Between),
    /// The tokens that a text becomes behind definitions.
    Expand(Asked<'w>),
}

impl<'w> Tool<'w> {
    /// The tool that the first word names, where it takes the words behind the file's.
    pub fn read(words: &'w Words) -> Option<Self>
        ensures { IfSome result MayRun }
    {
        let name = words.get(0)?;
        if name == b"expand".as_slice() {
            return Some(Tool::Expand(Asked::read(words)?));
        }
        if words.len() != 2 {
            return None;
        }
        Tool::plain(name)
    }

    // A tool that takes no words behind the file's.
    fn plain(name: &[u8]) -> Option<Self>
        ensures { IfSome result MayRun }
    {
        if name == b"if_value".as_slice() {
            Some(Tool::IfValue)
        } else if name == b"scopes".as_slice() {
            Some(Tool::Scopes)
        } else if name == b"types".as_slice() {
            Some(Tool::Types)
        } else if name == b"constants".as_slice() {
            Some(Tool::Constants)
        } else if name == b"attributes".as_slice() {
            Some(Tool::Attributes(Between::Attributes))
        } else if name == b"context_changes".as_slice() {
            Some(Tool::Attributes(Between::Statement))
        } else {
            None
        }
    }

    /// What it makes of a text.
    pub fn run(self, alloc: Global, text: &[u8]) -> Result<Vec<u8>, AllocError>
        requires words { MayRun self }
        requires size { length text.now < 2 ^ 30 }
    {
        match self {
            Tool::IfValue => if_values(alloc, text),
            Tool::Scopes => scope_answers(alloc, text),
            Tool::Types => type_answers(alloc, text),
            Tool::Constants => constant_answers(alloc, text),
            Tool::Attributes(between) => attribute_lines(alloc, between, text),
            Tool::Expand(asked) => expand_text(alloc, asked, text),
        }
    }
}
