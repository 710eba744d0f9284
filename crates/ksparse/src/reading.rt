// What the words of a command have set so far.
ghost use Rattle.std.specs.Prelude.{◌≡◌, IfErr, IfOk, OnOk, if◌then◌else◌};
ghost use Rattle.meaning_answer.specs.Options.{define_line, is_class, undef_line};
ghost use Rattle.meaning_answer.specs.Requests.{classes_on, is_bad, is_switched_on};
ghost use Rattle.ksparse.specs.Options.{switches_seen, word_seen};
ghost use Rattle.ksparse.specs.Reading.{IsMissing, empty_reading, has_file, reading_seen, requested, taken, with_directory, with_file, with_line};
ghost use Rattle.ksparse.specs.Words.{EachStandsOnce, options_in, request_seen};

use crate::class_names::{all_classes, is_class};
use crate::command::{Command, WordFault};
use crate::option::{Switch, Word};
use sparse_model::{Bytes, Class, ClassSet, Options, PathList, Seq};
use std::alloc::{AllocError, Global};

/// What was read of the words.
#[derive(Drop)]
pub(crate) struct Reading {
    for_tokens: bool,
    dirs: PathList,
    /// The lines of the file `<command>`.
    commands: Vec<u8>,
    switches: Vec<Switch>,
    file: Option<Bytes>,
}

impl Reading {
    /// Nothing was read.
    pub(crate) fn new(alloc: Global) -> Self
        ensures { reading_seen result ≡ empty_reading }
    {
        Reading {
            for_tokens: false,
            dirs: Seq::new(alloc),
            commands: Vec::new(alloc),
            switches: Vec::new(alloc),
            file: None,
        }
    }

    /// The word isn't allowed behind those that were read.
    pub(crate) fn refuses(&self, word: &Word<'_>) -> bool
        ensures { result ≡ is_bad (has_file (reading_seen self.now)) (word_seen word.now) }
    {
        match *word {
            Word::Strange => true,
            Word::Operand => self.file.is_some(),
            _ => false,
        }
    }

    /// Takes what a word sets, which is this text.
    pub(crate) fn take(
        &mut self,
        alloc: Global,
        text: &[u8],
        word: &Word<'_>,
    ) -> Result<(), AllocError>
        ensures { OnOk result (reading_seen self.new ≡ taken (word_seen word.now) text.now (reading_seen self.old)) }
    {
        match *word {
            Word::AsksForTokens => {
                self.for_tokens = true;
                Ok(())
            }
            Word::AddsDirectory(directory) => self.take_directory(alloc, directory),
            Word::Defines(name, text) => self.take_definition(name, text),
            Word::Undefines(name) => self.take_undefinition(name),
            Word::Switches(switch) => {
                self.switches.push(switch)?;
                Ok(())
            }
            Word::Operand => self.take_operand(alloc, text),
            Word::Strange => Ok(()),
        }
    }

    fn take_operand(&mut self, alloc: Global, path: &[u8]) -> Result<(), AllocError>
        ensures { OnOk result (reading_seen self.new ≡ with_file path.now (reading_seen self.old)) }
    {
        self.file = Some(Seq::from_vec(Vec::from_slice(alloc, path)?));
        Ok(())
    }

    fn take_directory(&mut self, alloc: Global, directory: &[u8]) -> Result<(), AllocError>
        ensures { OnOk result (reading_seen self.new ≡ with_directory directory.now (reading_seen self.old)) }
    {
        let directory = Seq::from_vec(Vec::from_slice(alloc, directory)?);
        match self.dirs.push(directory) {
            Ok(()) => Ok(()),
            Err(_) => Err(AllocError),
        }
    }

    fn take_definition(&mut self, name: &[u8], text: &[u8]) -> Result<(), AllocError>
        ensures { OnOk result (reading_seen self.new ≡ with_line (define_line name.now text.now) (reading_seen self.old)) }
    {
        self.commands.extend_from_slice(b"#define ")?;
        self.commands.extend_from_slice(name)?;
        self.commands.push(b' ')?;
        self.commands.extend_from_slice(text)?;
        self.commands.push(b'\n')?;
        Ok(())
    }

    fn take_undefinition(&mut self, name: &[u8]) -> Result<(), AllocError>
        ensures { OnOk result (reading_seen self.new ≡ with_line (undef_line name.now) (reading_seen self.old)) }
    {
        self.commands.extend_from_slice(b"#undef ")?;
        self.commands.extend_from_slice(name)?;
        self.commands.push(b'\n')?;
        Ok(())
    }

    /// The command that was read, if there was an operand.
    pub(crate) fn into_command(self, alloc: Global) -> Result<Command, WordFault>
        ensures command { IfOk result (λ command. request_seen command ≡ requested (reading_seen self)) }
        ensures once { IfOk result (λ command. EachStandsOnce (options_in command).classes) }
        ensures fault { IfErr result (IsMissing (reading_seen self)) }
    {
        let Reading {
            for_tokens,
            dirs,
            commands,
            switches,
            file,
        } = self;
        let Some(file) = file else {
            return Err(WordFault::MissingFile);
        };
        let options = Options {
            dirs,
            commands: Seq::from_vec(commands),
            classes: classes_on(alloc, &switches)?,
        };
        if for_tokens {
            Ok(Command::Expand { options, file })
        } else {
            Ok(Command::Check { options, file })
        }
    }
}

// The classes that are on behind these switches.
fn classes_on(alloc: Global, switches: &[Switch]) -> Result<ClassSet, AllocError>
    ensures { IfOk result (λ classes. classes ≡ classes_on (switches_seen switches.now)) }
{
    let mut classes = Vec::new(alloc);
    let mut left = all_classes();
    'classes: while let Some((class, others)) = left.split_first() {
        left = others;
        if is_switched_on(*class, switches) {
            classes.push(*class)?;
            continue 'classes;
        }
    }
    Ok(Seq::from_vec(classes))
}

// The class is on: the last switch of it decides.
fn is_switched_on(class: Class, switches: &[Switch]) -> bool
    ensures { result ≡ is_switched_on (switches_seen switches.now) class }
{
    let mut on = class.is_on_by_default();
    let mut left = switches;
    'switches: while let Some((switch, others)) = left.split_first() {
        on = is_on_behind(on, class, *switch);
        left = others;
    }
    on
}

// The class was so, and this switch stands behind.
fn is_on_behind(on: bool, class: Class, switch: Switch) -> bool
    ensures { result ≡ (if is_class class switch.class then switch.on else on) }
{
    if is_class(class, switch.class) {
        switch.on
    } else {
        on
    }
}
