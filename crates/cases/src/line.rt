// A line of an archive.
ghost use Rattle.std.specs.Prelude.{◌↔◌, IsTrue};
ghost use Rattle.cases.specs.Lines.{IsName, IsReadAs};

/// A line of an archive, without its new-line.
#[derive(Clone, Copy)]
pub enum Line<'a> {
    /// `-- NAME --` begins the section of this name.
    Section(&'a str),
    /// `-- NAME escaped --` begins one whose text is escaped.
    Escaped(&'a str),
    /// Any other line that begins with `-- ` is at fault.
    NoSection,
    /// `$ PROGRAM WORDS` runs a command.
    Command(&'a str),
    /// Any other line belongs to the section that is open, or to the comment.
    Text,
}

impl<'a> Line<'a> {
    /// Reads a line.
    pub fn read(line: &'a str) -> Self
        ensures { IsReadAs line.now result }
    {
        if let Some(command) = line.strip_prefix("$ ") {
            return Line::Command(command);
        }
        let Some(head) = line.strip_prefix("-- ") else {
            return Line::Text;
        };
        let Some(inside) = head.strip_suffix(" --") else {
            return Line::NoSection;
        };
        if let Some(name) = inside.strip_suffix(" escaped") {
            return if is_name(name) {
                Line::Escaped(name)
            } else {
                Line::NoSection
            };
        }
        if is_name(inside) {
            Line::Section(inside)
        } else {
            Line::NoSection
        }
    }
}

// Whether a section can be named so.
fn is_name(name: &str) -> bool
    ensures { IsTrue result ↔ IsName name.now }
{
    !name.is_empty() && name.as_bytes().iter().all(|byte| *byte != b' ')
}
