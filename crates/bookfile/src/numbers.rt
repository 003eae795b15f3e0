// The figures that are given, as the numbers that they are; 0 where none is given. There are two functions, since no trait gives a number type's
// limits.
ghost use Rattle.std.specs.Prelude.{◌≡◌};
ghost use Rattle.bookfile.specs.Numbers.{whole_of, change_of};

/// A whole number.
pub(crate) fn whole(figure: Option<i128>) -> u64
    ensures { result ≡ whole_of figure }
{
    figure.unwrap_or(0).clamp(0, u64::MAX as i128) as u64
}

/// A number with its sign.
pub(crate) fn change(figure: Option<i128>) -> i64
    ensures { result ≡ change_of figure }
{
    figure
        .unwrap_or(0)
        .clamp(i64::MIN as i128, i64::MAX as i128) as i64
}
