//! The laws of shapes and of rows.
ghost use Rattle.std.specs.Prelude.{◌≡◌, true};
ghost use Rattle.limits.specs.declared.bounds.Bounds.{Bounds};
ghost use Rattle.query_rows.specs.ColumnShape.{AreBounds, column_shape};
ghost use Rattle.query_rows.specs.FinalRows.{AreOne, AreThere};
ghost use Rattle.query_rows.specs.Keeping.{AreMonotone, AreOrdered, GatherShapes, KeepShapes};
ghost use Rattle.query_rows.specs.Same.{SamenessIsAnEquivalence};
ghost use Rattle.query_rows.specs.Shape.{is_held};
ghost use Rattle.query_rows.specs.Shaped.{ShapedRowsHaveShortTexts};
ghost use Rattle.query_terms.specs.declared.column.Column.{Column};

/// Where an operation gives a shape, its value is there and is of that shape.
pub fn operations_keep_shapes()
    ensures { KeepShapes }
{}

/// Of lesser shapes an operation gives lesser ones.
pub fn rules_are_monotone()
    ensures { AreMonotone }
{}

/// What is gathered over at most so many values is of the shape that is given.
pub fn aggregates_keep_shapes()
    ensures { GatherShapes }
{}

/// Being below is an order, and two shapes of one kind have a least one above both.
pub fn shapes_are_ordered()
    ensures { AreOrdered }
{}

/// Within the limits of bounds, each value of a column can be held.
pub fn columns_are_held()
    ensures { (b : Bounds) (c : Column) → AreBounds b → is_held (column_shape b c) ≡ true }
{}

/// Rows that go in have one list of rows that come out.
pub fn final_rows_are_one()
    ensures there { AreThere }
    ensures one { AreOne }
{}

/// Being the same is an equivalence of lists of values.
pub fn lists_are_the_same_alike()
    ensures { SamenessIsAnEquivalence }
{}

/// Whatever is read of the metadata of a shaped row is of the shape of texts.
pub fn shaped_rows_have_short_texts()
    ensures { ShapedRowsHaveShortTexts }
{}
