//! Values within the bounds of their attributes.
ghost use Rattle.std.specs.Prelude.{◌≡◌};
ghost use Rattle.mdcc_option.specs.Bounds.{is_within, are_within};

/// Whether the value is at least the lower bound and at most the upper one.
pub(crate) fn is_within(bounds: &(i64, i64), value: i64) -> bool
    ensures { result ≡ is_within bounds.now value }
{
    bounds.0 <= value && value <= bounds.1
}

/// Whether each value is within its bounds.
pub(crate) fn are_within(schema: &[(i64, i64)], values: &[i64]) -> bool
    ensures { result ≡ are_within schema.now values.now }
{
    schema
        .iter()
        .zip(values)
        .all(|(bounds, value)| is_within(bounds, *value))
}

/// Whether the sum is at least the lower bound and at most the upper one.
pub(crate) fn is_sum_within(bounds: &(i64, i64), sum: i128) -> bool
    ensures { result ≡ is_within bounds.now sum }
{
    i128::from(bounds.0) <= sum && sum <= i128::from(bounds.1)
}

/// Whether each sum is within its bounds.
pub(crate) fn are_sums_within(schema: &[(i64, i64)], sums: &[i128]) -> bool
    ensures { result ≡ are_within schema.now sums.now }
{
    schema
        .iter()
        .zip(sums)
        .all(|(bounds, sum)| is_sum_within(bounds, *sum))
}
