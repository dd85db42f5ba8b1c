//! Include lines, and the names that they ask for.
ghost use Rattle.std.specs.Prelude.{◌≡◌, ◌<◌, [], ◌∷◌, ◌++◌, length, map, IfOk, IfSome, OnOk};
ghost use Rattle.std.specs.Prelude.{MatchOption};
ghost use Rattle.std.specs.String.{string_bytes};
ghost use Rattle.bean_base.specs.Character.{slash};
ghost use Rattle.bean_load.specs.Include.{AreIncludes, folder, include_of, joined};

use bean_includes::{IncludeLine, include_lines};
use std::alloc::{AllocError, Global};
use std::marker::Model;

/// An include line.
#[derive(Drop)]
pub struct Include {
    /// The line on which it is written, from 1.
    pub line: usize,
    /// The name that it asks for.
    pub name: String,
}

impl Model for Include {
    ghost use Rattle.std.specs.String.{string_bytes};
    ghost use Rattle.bean_load.specs.Include as spec;

    ghost Value = { spec.Include };

    ghost view = { λ i. record { line = i.line; name = string_bytes i.name } };
}

/// An include line as it is written in a text of the name `including`. It asks for the joined name,
/// which is made when it is wanted: all of a text's would take as much as its folder is long, each.
#[derive(Drop)]
pub struct Written<'n> {
    line: usize,
    including: &'n str,
    name: String,
}

impl<'n> Model for Written<'n> {
    ghost use Rattle.std.specs.String.{string_bytes};
    ghost use Rattle.bean_load.specs.Include as spec;

    ghost Value = { spec.Include };

    ghost view = { λ w. record {
      line = w.line;
      name = spec.joined w.including.now (string_bytes w.name);
    } };
}

/// What stands before the first slash, and behind it.
fn split_at_slash(name: &str) -> Option<(&str, &str)>
    ensures parts { MatchOption result (folder name.now ≡ [])
        (λ p. folder name.now ≡ p.0.now ++ slash ∷ folder p.1.now) }
    ensures shorter { IfSome result (λ p. length p.1.now < length name.now) }
{
    match name.split_once('/') {
        Some((before, behind)) => Some((before, behind)),
        None => None,
    }
}

/// What is still to be added of a name's folder.
#[derive(Clone, Copy)]
struct Unadded<'t> {
    name: &'t str,
}

/// Adds the folder of a name, with its last slash.
fn add_folder(name: &str, out: &mut String) -> Result<(), AllocError>
    ensures { OnOk result (string_bytes out.new ≡ string_bytes out.old ++ folder name.now) }
{
    let mut unadded = Unadded { name };
    while let Some((before, behind)) = split_at_slash(unadded.name) {
        out.push_str(before)?;
        out.push('/')?;
        unadded = Unadded { name: behind };
    }
    Ok(())
}

/// The name that a text of the name `including` asks for by `name`.
fn joined(alloc: Global, including: &str, name: &str) -> Result<String, AllocError>
    ensures { IfOk result (λ found. string_bytes found ≡ joined including.now name.now) }
{
    let mut joined = String::new(alloc);
    if !name.starts_with('/') {
        add_folder(including, &mut joined)?;
    }
    joined.push_str(name)?;
    Ok(joined)
}

impl<'n> Written<'n> {
    /// An include line of a text of the name `including`.
    fn new(
        alloc: Global,
        including: &'n str,
        include: &IncludeLine<'_>,
    ) -> Result<Written<'n>, AllocError>
        ensures { IfOk result (λ w. w ≡ include_of including.now include.now) }
    {
        let mut name = String::new(alloc);
        include.name.add_to(&mut name)?;
        Ok(Written {
            line: include.line,
            including,
            name,
        })
    }

    /// The line, with the name that it asks for.
    pub fn include(&self, alloc: Global) -> Result<Include, AllocError>
        ensures { IfOk result (λ i. i ≡ self.now) }
    {
        Ok(Include {
            line: self.line,
            name: joined(alloc, self.including, &self.name)?,
        })
    }
}

/// What the include lines of a text of that name ask for.
fn asked_by<'n>(
    alloc: Global,
    including: &'n str,
    lines: &[IncludeLine<'_>],
) -> Result<Vec<Written<'n>>, AllocError>
    ensures { IfOk result (λ found. found.items ≡ map (include_of including.now) lines.now) }
{
    let mut found = Vec::new(alloc);
    for line in lines {
        found.push(Written::new(alloc, including, line)?)?;
    }
    Ok(found)
}

/// The include lines of a text of that name, in order.
pub fn includes_of<'n>(
    alloc: Global,
    name: &'n str,
    text: &str,
) -> Result<Vec<Written<'n>>, AllocError>
    ensures { IfOk result (λ found. AreIncludes name.now text.now found.items) }
{
    let lines = include_lines(alloc, text)?;
    asked_by(alloc, name, &lines)
}
