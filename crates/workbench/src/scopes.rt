// Commands on scopes, and what they answer, each in a line.
ghost use Rattle.std.specs.Prelude.{◌^◌, ◌<◌, length};

use c_scope::{Binding, Bound, NameSpace, Scopes, TokenClass};
use c_tokens::{Names, lex};
use itoa::Buffer;
use sparse_model::NameId;
use std::alloc::{AllocError, Global};
use type_workbench::word_of;

/// What a word wants of the name behind it.
#[derive(Clone, Copy)]
enum Wanted {
    /// To be bound.
    Bind(NameSpace, Bound),
    /// To be found.
    Find(NameSpace),
    /// Its class.
    Class,
}

/// Scopes under commands, the entries that were kept last, and what was answered.
#[derive(Drop)]
struct Session {
    scopes: Scopes,
    kept: Vec<Binding>,
    shown: Vec<u8>,
    wanted: Option<Wanted>,
}

/// The answers to commands. `{` opens a scope, `}` leaves one, `keep` leaves one and keeps its entries, and
/// `reopen` opens one with those that were kept last. A name behind `typedef`, `enumerator`, `linked`,
/// `unlinked`, `tag` or `label` is bound so, by the index of its token. One behind `find`, `find_tag` or
/// `find_label` is looked up, and one behind `class` is told its class. Other words do nothing.
pub fn scope_answers(alloc: Global, text: &[u8]) -> Result<Vec<u8>, AllocError>
    requires { length text.now < 2 ^ 30 }
{
    let mut names = Names::new(alloc)?;
    let Ok(tokens) = lex(alloc, &mut names, 1, text) else {
        return Err(AllocError);
    };
    let mut session = Session {
        scopes: Scopes::new(alloc),
        kept: Vec::new(alloc),
        shown: Vec::new(alloc),
        wanted: None,
    };
    let mut index = 0u32;
    for token in tokens.as_slice() {
        match session.wanted {
            Some(wanted) => session.answer(wanted, token.name, index)?,
            None => session.command(word_of(&names, token.name))?,
        }
        index = index.wrapping_add(1);
    }
    Ok(session.shown)
}

impl Session {
    // Does what a word asks for, if it needs no name.
    fn command(&mut self, word: &[u8]) -> Result<(), AllocError> {
        self.wanted = wanted_by(word);
        if word == b"{".as_slice() {
            return self.scopes.enter();
        }
        if word == b"reopen".as_slice() {
            return self.scopes.reopen(&self.kept);
        }
        if word == b"}".as_slice() && self.scopes.is_open() {
            self.scopes.leave();
        }
        if word == b"keep".as_slice() && self.scopes.is_open() {
            self.kept = self.scopes.keep()?;
        }
        Ok(())
    }

    // Does with a name what was wanted.
    fn answer(&mut self, wanted: Wanted, name: NameId, index: u32) -> Result<(), AllocError> {
        self.wanted = None;
        match wanted {
            Wanted::Bind(space, bound) => self.scopes.bind(space, name, index, bound),
            Wanted::Find(space) => match self.scopes.find(space, name) {
                Some((handle, bound, here)) => push_found(&mut self.shown, handle, bound, here),
                None => self.shown.extend_from_slice(b"none\n"),
            },
            Wanted::Class => match self.scopes.class(name) {
                TokenClass::TypedefName => self.shown.extend_from_slice(b"typedef name\n"),
                _ => self.shown.extend_from_slice(b"identifier\n"),
            },
        }
    }
}

// What a word wants of the name behind it, if it wants something.
fn wanted_by(word: &[u8]) -> Option<Wanted> {
    if word == b"find".as_slice() {
        Some(Wanted::Find(NameSpace::Ordinary))
    } else if word == b"find_tag".as_slice() {
        Some(Wanted::Find(NameSpace::Tags))
    } else if word == b"find_label".as_slice() {
        Some(Wanted::Find(NameSpace::Labels))
    } else if word == b"class".as_slice() {
        Some(Wanted::Class)
    } else {
        bound_by(word)
    }
}

// How a word binds the name behind it, if it does.
fn bound_by(word: &[u8]) -> Option<Wanted> {
    if word == b"typedef".as_slice() {
        Some(Wanted::Bind(NameSpace::Ordinary, Bound::Typedef))
    } else if word == b"enumerator".as_slice() {
        Some(Wanted::Bind(NameSpace::Ordinary, Bound::Enumerator))
    } else if word == b"linked".as_slice() {
        Some(Wanted::Bind(NameSpace::Ordinary, Bound::Linked))
    } else if word == b"unlinked".as_slice() {
        Some(Wanted::Bind(NameSpace::Ordinary, Bound::Unlinked))
    } else if word == b"tag".as_slice() {
        Some(Wanted::Bind(NameSpace::Tags, Bound::Tag))
    } else if word == b"label".as_slice() {
        Some(Wanted::Bind(NameSpace::Labels, Bound::Label))
    } else {
        None
    }
}

// Appends what was found: its number, what it is, and whether the innermost scope has it.
fn push_found(
    shown: &mut Vec<u8>,
    handle: u32,
    bound: Bound,
    here: bool,
) -> Result<(), AllocError> {
    let mut buffer = Buffer::new();
    shown.extend_from_slice(buffer.format(handle).as_bytes())?;
    shown.push(b' ')?;
    shown.extend_from_slice(word_for(bound))?;
    if here {
        shown.extend_from_slice(b" here")?;
    }
    shown.push(b'\n')?;
    Ok(())
}

fn word_for(bound: Bound) -> &'static [u8] {
    match bound {
        Bound::Typedef => b"typedef",
        Bound::Enumerator => b"enumerator",
        Bound::Linked => b"linked",
        Bound::Unlinked => b"unlinked",
        Bound::Tag => b"tag",
        Bound::Label => b"label",
    }
}
