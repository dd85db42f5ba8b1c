//! Rows of values that lie one behind the other.
ghost use Rattle.std.specs.Prelude.{◌≡◌, ◌≤◌, ◌++◌, ◌∷◌, [], length, map, take, vec_capacity};
ghost use Rattle.std.specs.Prelude.{IfOk, IfSome, OnOk};
ghost use Rattle.arranging.specs.Places.{AreMixed};
ghost use Rattle.query_answer.specs.Places as spec;
ghost use Rattle.query_answer.specs.Places.{AreDense, HaveBecome, MayGo};
ghost use Rattle.query_answer.specs.Rows.{ArePicked, given_up, nulls, row_at};
ghost use Rattle.query_answer.specs.Spans.{IsSameAround, LieApart, between, narrowed_to, rows_in, span_at};
ghost use Rattle.query_answer.specs.Spans.{values_in};

use crate::bringing::bring_all;
use crate::places::{are_dense, places_of};
use query_values::Value;
use std::alloc::{AllocError, Global};
use std::marker::Model;
use std::mem::replace;

/// From where to where the values of a row lie.
#[derive(Clone, Copy)]
pub(crate) struct Span {
    pub(crate) start: usize,
    pub(crate) end: usize,
}

/// Rows of values, all of which lie one behind the other in one piece of memory. Its value is the
/// list of the rows.
pub struct AnswerRows<'a> {
    values: Vec<Value<'a>>,
    spans: Vec<Span>,
}

/// Written out, so that crates which give one up need to know nothing of what is in it.
impl Drop for AnswerRows<'_> {
    fn drop(self) {
        let AnswerRows {
            values: _,
            spans: _,
        } = self;
    }
}

impl<'a> Model for AnswerRows<'a> {
    ghost use Rattle.std.specs.Prelude.{List, length};
    ghost use Rattle.query_values.specs.declared.value.Value as of_queries;

    ghost Value = { List (List of_queries.Value) };

    ghost use Rattle.query_answer.specs.Spans.{LieApart, rows_in};

    ghost view = { λ r. rows_in r.values.items r.spans.items };

    ghost invariant = { λ r. LieApart 0 (length r.values.items) r.spans.items };
}

/// The span of a row that is shown up to so many values.
fn narrowed(span: Span, width: usize) -> Span
    ensures { result ≡ narrowed_to width span }
{
    let end = span.start.saturating_add(width).min(span.end);
    Span {
        start: span.start,
        end,
    }
}

/// The spans of rows that are shown up to so many values.
fn narrow_all(spans: &mut [Span], width: usize)
    ensures { spans.new ≡ map (narrowed_to width) spans.old }
{
    for i in 0..spans.len() {
        let span = spans[i];
        spans[i] = narrowed(span, width);
    }
}

/// From how many items on a list is taken for one that becomes long.
const MANY: usize = 1 << 16;

/// How many items a long list has room for at once. So much memory is taken from the system by
/// itself: what isn't written to costs nothing, and what grows further isn't copied.
const ROOM: usize = 1 << 21;

/// Takes room for a long list before it grows step by step, which would leave a hole behind at each.
/// What room is taken is in no clause: a list that lacks it grows as it is added to.
fn make_room<T>(items: &mut Vec<T>) -> Result<(), AllocError>
    ensures { items.new.items ≡ items.old.items }
{
    let len = items.len();
    if len < MANY || items.capacity() >= ROOM {
        return Ok(());
    }
    items.reserve(ROOM - len.min(ROOM))
}

/// The values of a span.
#[inline(always)]
fn within<'v, 'a>(values: &'v [Value<'a>], span: Span) -> &'v [Value<'a>]
    requires up { span.start ≤ span.end }
    requires inside { span.end ≤ length values.now }
    ensures { result.now ≡ values_in values.now span }
{
    &values[span.start..span.end]
}

/// The spans of these numbers.
fn spans_of(alloc: Global, spans: &[Span], numbers: &[usize]) -> Result<Vec<Span>, AllocError>
    requires { ArePicked (length spans.now) numbers.now }
    ensures { IfOk result (λ found. found.items ≡ map (span_at spans.now) numbers.now) }
{
    let mut found = Vec::with_capacity(alloc, numbers.len())?;
    let mut rest = numbers;
    while let [number, others @ ..] = rest {
        found.push(spans[*number])?;
        rest = others;
    }
    Ok(found)
}

/// How many values spans have, for which room is taken at once.
fn room_for(spans: &[Span]) -> usize {
    let mut count: usize = 0;
    for span in spans {
        count = count.saturating_add(span.end.saturating_sub(span.start));
    }
    count
}

/// Moves values behind others, and leaves as many nulls.
fn move_values<'a>(from: &mut [Value<'a>], to: &mut Vec<Value<'a>>) -> Result<(), AllocError>
    ensures moved { OnOk result (to.new.items ≡ to.old.items ++ from.old) }
    ensures left { length from.new ≡ length from.old }
{
    for i in 0..from.len() {
        to.push(replace(&mut from[i], Value::Null))?;
    }
    Ok(())
}

/// Moves the values of a span behind others, leaves as many nulls, and tells where they lie now.
fn move_span<'a>(
    from: &mut [Value<'a>],
    span: Span,
    to: &mut Vec<Value<'a>>,
) -> Result<Span, AllocError>
    requires up { span.start ≤ span.end }
    requires inside { span.end ≤ length from.old }
    ensures moved { OnOk result (to.new.items ≡ to.old.items ++ values_in from.old span) }
    ensures lies { IfOk result (λ s. s ≡ between to.old.items to.new.items) }
    ensures left { IsSameAround span from.old from.new }
{
    let start = to.len();
    move_values(&mut from[span.start..span.end], to)?;
    let end = to.len();
    Ok(Span { start, end })
}

/// Gives up values, and leaves as many nulls.
fn clear(values: &mut [Value<'_>])
    ensures { values.new ≡ nulls values.old }
{
    for i in 0..values.len() {
        values[i] = Value::Null;
    }
}

/// Gives up the values of a span, and leaves as many nulls.
fn clear_span(values: &mut [Value<'_>], span: Span)
    requires up { span.start ≤ span.end }
    requires inside { span.end ≤ length values.old }
    ensures cleared { values_in values.new span ≡ nulls (values_in values.old span) }
    ensures left { IsSameAround span values.old values.new }
{
    clear(&mut values[span.start..span.end]);
}

/// Gives up the values of the rows from one number up to another.
fn clear_rows(values: &mut [Value<'_>], spans: &[Span], first: usize, end: usize)
    requires { LieApart 0 (length values.old) spans.now }
    ensures count { length values.new ≡ length values.old }
    ensures rows { rows_in values.new spans.now
        ≡ given_up first end (rows_in values.old spans.now) }
{
    for number in first..end.min(spans.len()) {
        clear_span(values, spans[number]);
    }
}

/// How many values the first row has.
fn width_of(spans: &[Span]) -> usize
    ensures { result ≡ spec.width_of spans.now }
{
    match spans {
        [first, ..] => first.end.saturating_sub(first.start),
        [] => 0,
    }
}

/// Where each row goes if rows are picked by these numbers, where these are all rows, and rows of as
/// many values lie one behind the other.
fn places_for(
    alloc: Global,
    spans: &[Span],
    numbers: &[usize],
) -> Result<Option<Vec<u32>>, AllocError>
    ensures { IfOk result (λ found. IfSome found (λ places.
        MayGo spans.now numbers.now places.items)) }
{
    if numbers.len() != spans.len() || !are_dense(spans, width_of(spans)) {
        return Ok(None);
    }
    places_of(alloc, numbers)
}

/// All rows in another order, where they lie.
fn brought<'a>(values: Vec<Value<'a>>, spans: Vec<Span>, places: Vec<u32>) -> AnswerRows<'a>
    requires apart { LieApart 0 (length values.items) spans.items }
    requires dense { AreDense spans.items }
    requires mixed { AreMixed places.items }
    requires count { length places.items ≡ length spans.items }
    ensures { HaveBecome (rows_in values.entry.items spans.items) places.items result }
{
    let mut values = values;
    let mut places = places;
    let width = width_of(spans.as_slice());
    bring_all(&mut values, spans.as_slice(), width, &mut places);
    AnswerRows { values, spans }
}

/// The rows of these numbers, moved to memory of their own.
fn moved<'a>(
    alloc: Global,
    values: Vec<Value<'a>>,
    spans: Vec<Span>,
    numbers: &[usize],
) -> Result<AnswerRows<'a>, AllocError>
    requires apart { LieApart 0 (length values.items) spans.items }
    requires picked { ArePicked (length spans.items) numbers.now }
    ensures { IfOk result (λ moved.
        moved ≡ map (row_at (rows_in values.entry.items spans.items)) numbers.now) }
{
    // Where they lie is looked up for all of them first, so that no look-up waits for a row on its
    // way.
    let lying = spans_of(alloc, spans.as_slice(), numbers)?;
    let mut left = values;
    let mut values = Vec::with_capacity(alloc, room_for(lying.as_slice()))?;
    let mut moved = Vec::with_capacity(alloc, lying.len())?;
    for lies in lying.as_slice() {
        let span = move_span(&mut left, *lies, &mut values)?;
        moved.push(span)?;
    }
    Ok(AnswerRows {
        values,
        spans: moved,
    })
}

impl<'a> AnswerRows<'a> {
    /// No rows.
    pub fn new(alloc: Global) -> AnswerRows<'a>
        ensures { result ≡ [] }
    {
        AnswerRows {
            values: Vec::new(alloc),
            spans: Vec::new(alloc),
        }
    }

    /// How many rows there are.
    pub fn len(&self) -> usize
        ensures { result ≡ length self.now }
    {
        self.spans.len()
    }

    /// The row of this number, from 0; one without values where there is none.
    #[inline(always)]
    pub fn row(&self, number: usize) -> &[Value<'a>]
        ensures { result.now ≡ row_at self.now number }
    {
        if number >= self.spans.len() {
            return &[];
        }
        within(self.values.as_slice(), self.spans[number])
    }

    /// Takes room for many rows, where they become many.
    fn make_room(&mut self) -> Result<(), AllocError>
        ensures { self.new ≡ self.old }
    {
        make_room(&mut self.values)?;
        make_room(&mut self.spans)
    }

    /// Adds a row of these values, which are moved. The vector keeps its room.
    pub fn push(&mut self, row: &mut Vec<Value<'a>>) -> Result<(), AllocError>
        ensures added { OnOk result (self.new ≡ self.old ++ row.old.items ∷ []) }
        ensures taken { OnOk result (row.new.items ≡ []) }
        ensures room { vec_capacity row.new ≡ vec_capacity row.old }
    {
        self.make_room()?;
        self.add(row)
    }

    /// The same where room was taken.
    fn add(&mut self, row: &mut Vec<Value<'a>>) -> Result<(), AllocError>
        ensures added { OnOk result (self.new ≡ self.old ++ row.old.items ∷ []) }
        ensures taken { OnOk result (row.new.items ≡ []) }
        ensures room { vec_capacity row.new ≡ vec_capacity row.old }
    {
        let start = self.values.len();
        self.values.append(row)?;
        let end = self.values.len();
        self.spans.push(Span { start, end })?;
        Ok(())
    }

    /// Only so many of the first rows.
    pub fn truncate(&mut self, most: usize)
        ensures { self.new ≡ take most self.old }
    {
        self.spans.truncate(most);
    }

    /// Only so many of the first values of each row. No value is moved.
    pub fn narrow(&mut self, width: usize)
        ensures { self.new ≡ map (take width) self.old }
    {
        narrow_all(&mut self.spans, width);
    }

    /// Gives up the values of the rows from one number up to another, and leaves nulls in their places.
    /// The other rows stay as they are.
    pub fn give_up(&mut self, first: usize, end: usize)
        ensures { self.new ≡ given_up first end self.old }
    {
        clear_rows(&mut self.values, &self.spans, first, end);
    }

    /// The rows of these numbers, side by side in this order. None is picked twice.
    pub fn picked(self, alloc: Global, numbers: &[usize]) -> Result<AnswerRows<'a>, AllocError>
        requires { ArePicked (length self) numbers.now }
        ensures { IfOk result (λ picked. picked ≡ map (row_at self.entry) numbers.now) }
    {
        let AnswerRows { values, spans } = self;
        match places_for(alloc, spans.as_slice(), numbers)? {
            Some(places) => Ok(brought(values, spans, places)),
            None => moved(alloc, values, spans, numbers),
        }
    }
}
