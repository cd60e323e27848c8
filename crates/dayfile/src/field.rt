// Where a number stands in a record, and which values it may have.
ghost use Rattle.std.specs.Prelude.{◌≡◌};
ghost use Rattle.dayfile.specs.declared.field.Rule.TheVariants.{Within as IsWithin, Zero as IsZero};

#[derive(Clone, Copy)]
pub(crate) struct Column {
    pub(crate) at: usize,
    pub(crate) width: usize,
}

// A field that is unused or spare must be 0.
#[derive(Clone, Copy)]
pub(crate) enum Rule {
    Within { low: u64, high: u64 },
    Zero,
    Any,
}

#[derive(Clone, Copy)]
pub(crate) struct Field {
    pub(crate) column: Column,
    pub(crate) rule: Rule,
}

impl Field {
    pub(crate) fn within(column: Column, low: u64, high: u64) -> Field
        ensures { result ≡ record { column = column; rule = IsWithin low high } }
    {
        let rule = Rule::Within { low, high };
        Field { column, rule }
    }

    pub(crate) fn zero(column: Column) -> Field
        ensures { result ≡ record { column = column; rule = IsZero } }
    {
        let rule = Rule::Zero;
        Field { column, rule }
    }
}
