//! The booking methods of a ledger's accounts.
ghost use Rattle.std.specs.Prelude.{◌≡◌, ◌++◌, List, ℕ, OnOk, IfOk};
ghost use Rattle.bean_replay.specs.Method as spec;
ghost use Rattle.bean_accounts.specs.Log.{with_found};
ghost use Rattle.bean_accounts.specs.Methods.{method_in};

use crate::placed::kind_of;
use bean_accounts::{FaultLog, Methods, method_named};
use bean_base::{Fault, FaultKind, Text};
use bean_directives::{ApartDirective, DirectiveKind};
use bean_loaded::{MethodLine, Placed};
use bean_reductions::Method;
use std::alloc::{AllocError, Global};

/// The method once a line is read.
fn behind(method: Method, line: &MethodLine<'_>) -> Method
    ensures { result ≡ spec.behind method line.now }
{
    method_named(&line.method).unwrap_or(method)
}

/// The method for accounts whose open names none: that of the last line that names one.
pub(crate) fn otherwise(lines: &[MethodLine<'_>]) -> Method
    ensures { result ≡ spec.otherwise lines.now }
{
    let mut method = Method::Strict;
    for line in lines {
        method = behind(method, line);
    }
    method
}

/// Adds the fault of a line that names no method.
fn note_line(line: &MethodLine<'_>, faults: &mut FaultLog) -> Result<(), AllocError>
    ensures { OnOk result (faults.new ≡ with_found (spec.unknown_of line.now) faults.old) }
{
    if method_named(&line.method).is_none() {
        faults.add(Fault {
            kind: FaultKind::UnknownMethod,
            place: line.place,
        })?;
    }
    Ok(())
}

/// Adds the faults of lines that name no method.
pub(crate) fn note_unknown(
    lines: &[MethodLine<'_>],
    faults: &mut FaultLog,
) -> Result<(), AllocError>
    ensures { OnOk result (faults.new ≡ with_found (spec.unknown_in lines.now) faults.old) }
{
    for line in lines {
        note_line(line, faults)?;
    }
    Ok(())
}

/// The method that an open names, if it names one.
fn named_in(method: &Option<Text<'_>>) -> Option<Method>
    ensures { result ≡ spec.named_in method.now }
{
    match method {
        Some(name) => method_named(name),
        None => None,
    }
}

/// Notes the method of the account that a directive opens, over what later ones say.
fn note_open<'a>(
    methods: &mut Methods<'a>,
    otherwise: Method,
    kind: &DirectiveKind<'a>,
) -> Result<(), AllocError>
    ensures { OnOk result ((a : List ℕ) → method_in methods.new a
        ≡ spec.method_by otherwise kind.now a (method_in methods.old a)) }
{
    match kind {
        DirectiveKind::Open(open) => methods.set(
            open.account.lend(),
            named_in(&open.method).unwrap_or(otherwise),
        ),
        _ => Ok(()),
    }
}

/// The methods by the first opens of accounts.
pub(crate) fn methods_of<'a>(
    alloc: Global,
    otherwise: Method,
    directives: &[Placed<ApartDirective<'a>>],
) -> Result<Methods<'a>, AllocError>
    ensures { IfOk result (λ ms. (a : List ℕ)
        → method_in ms a ≡ spec.method_of otherwise directives.now a) }
{
    let mut methods = Methods::new(alloc, otherwise);
    let count = directives.len();
    for taken in 0..count {
        let placed = &directives[count - 1 - taken];
        note_open(&mut methods, otherwise, kind_of(placed))?;
    }
    Ok(methods)
}
