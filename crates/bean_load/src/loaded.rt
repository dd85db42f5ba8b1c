//! What the texts of a ledger say together.
ghost use Rattle.std.specs.Prelude.{◌≡◌, ◌++◌, [], ◌∷◌, List, map, length, option_map, IfOk, OnOk};
ghost use Rattle.std.specs.List.{flat_map};
ghost use Rattle.bean_load.specs.Loaded as spec;
ghost use Rattle.bean_load.specs.Loaded.{IsLoaded};
ghost use Rattle.bean_load.specs.Loading.{AddsParsed, AddsSetting, AreBooks, AreRead};
ghost use Rattle.bean_load.specs.Loading.{HasOneLoading};
ghost use Rattle.bean_load.specs.Turns.{AreCodesIf};
ghost use Rattle.bean_loaded.specs.Limited.{AreFew, AreSmall};

use crate::order::{Codes, order_directives, order_settings};
use crate::placed::{Own, add_directives, add_settings, parts_of};
use crate::texts::Texts;
use bean_base::{Fault, Place, Text};
use bean_loaded::{Loaded, MethodLine, Placed};
use bean_parser::parse::parse;
use bean_parser::{ApartDirective, Parsed, Setting, SettingKind};
use std::alloc::{AllocError, Global};

/// What is read of texts so far.
#[derive(Drop)]
pub struct Read<'a> {
    pub directives: Vec<Placed<ApartDirective<'a>>>,
    /// By which the directives are arranged.
    pub codes: Codes,
    pub settings: Vec<Placed<Setting<'a>>>,
    pub faults: Vec<Fault>,
}

/// Adds the faults of a text's blocks.
fn add_faults(file: usize, faults: &[Fault], out: &mut Vec<Fault>) -> Result<(), AllocError>
    ensures { OnOk result (out.new.items
        ≡ out.old.items ++ map (spec.fault_in file) faults.now) }
{
    for fault in faults {
        let place = Place {
            file,
            ..fault.place
        };
        out.push(Fault { place, ..*fault })?;
    }
    Ok(())
}

impl<'a> Read<'a> {
    /// Adds what the text of that number says.
    fn add(&mut self, file: usize, own: &[Own], parsed: Parsed<'a>) -> Result<(), AllocError>
        ensures { OnOk result (AddsParsed file own.now parsed.entry self.old self.new) }
    {
        add_directives(
            file,
            own,
            parsed.directives.into_vec(),
            &mut self.directives,
            &mut self.codes,
        )?;
        add_settings(file, own, parsed.settings.into_vec(), &mut self.settings)?;
        add_faults(file, parsed.faults.as_slice(), &mut self.faults)
    }
}

/// What settings in reading order say of the books.
#[derive(Drop)]
pub struct Books<'a> {
    pub title: Option<Text<'a>>,
    pub operating: Vec<Text<'a>>,
    pub methods: Vec<MethodLine<'a>>,
}

impl<'a> Books<'a> {
    /// Adds what a setting says.
    fn add(&mut self, setting: &Placed<Setting<'a>>) -> Result<(), AllocError>
        ensures { OnOk result (AddsSetting setting.now self.old self.new) }
    {
        match &setting.item.kind {
            SettingKind::Title(title) => self.title = Some(title.lend()),
            SettingKind::OperatingCurrency(currency) => self.operating.push(currency.lend())?,
            SettingKind::BookingMethod(method) => self.methods.push(MethodLine {
                place: Place {
                    file: setting.file as usize,
                    line: setting.item.line,
                },
                method: method.lend(),
            })?,
            SettingKind::Include(_) => {}
        }
        Ok(())
    }
}

/// What settings in reading order say of the books.
fn books_of<'a>(alloc: Global, settings: &[Placed<Setting<'a>>]) -> Result<Books<'a>, AllocError>
    ensures { IfOk result (AreBooks settings.now) }
{
    let mut books = Books {
        title: None,
        operating: Vec::new(alloc),
        methods: Vec::new(alloc),
    };
    for setting in settings {
        books.add(setting)?;
    }
    Ok(books)
}

/// What each of the texts says, with its places.
fn read_all(alloc: Global, texts: &Texts) -> Result<Read<'_>, AllocError>
    ensures read { IfOk result (AreRead texts.now) }
    ensures small { IfOk result (λ read. AreSmall read.directives.items) }
    ensures few { IfOk result (λ read. AreFew read.directives.items) }
    ensures coded { IfOk result (λ read. AreCodesIf read.directives.items read.codes) }
{
    let mut read = Read {
        directives: Vec::new(alloc),
        codes: Codes::new(alloc),
        settings: Vec::new(alloc),
        faults: Vec::new(alloc),
    };
    let files = texts.files();
    for (number, file) in files.iter().enumerate() {
        let own = parts_of(alloc, number, texts.parts())?;
        read.add(number, &own, parse(alloc, &file.text)?)?;
    }
    Ok(read)
}

/// What the texts of a ledger say together.
pub fn load(alloc: Global, texts: &Texts) -> Result<Loaded<'_>, AllocError>
    ensures { IfOk result (IsLoaded texts.now) }
{
    let read = read_all(alloc, texts)?;
    let mut directives = read.directives;
    let mut settings = read.settings;
    let mut faults = read.faults;
    order_directives(alloc, &mut directives, read.codes)?;
    order_settings(&mut settings)?;
    let books = books_of(alloc, &settings)?;
    faults.extend_from_slice(texts.faults())?;
    Ok(Loaded::new(
        directives,
        faults,
        books.title,
        books.operating,
        books.methods,
    ))
}

/// Texts say one thing together.
pub fn one_loading()
    ensures { HasOneLoading }
{}
