ghost use Rattle.std.specs.Prelude.{◌≡◌};
ghost use Rattle.node_select.specs.Numbers.{whole_of};

/// The whole number from -2^63 to 2^63-1 that a text represents, with or without a sign and leading
/// zeros. None if it isn't such a number.
pub fn whole(text: &str) -> Option<i64>
    ensures { result ≡ whole_of text.now }
{
    text.parse::<i64>().ok()
}
