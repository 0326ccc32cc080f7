//! How tightly operators bind, from the loosest on. All but comparisons go on from the left.

/// `or`
pub const DISJUNCTION: u8 = 0;

/// `and`
pub const CONJUNCTION: u8 = 1;

/// `<`, `<=`, `>`, `>=`, `==`
pub const COMPARISON: u8 = 2;

/// `+` and `-` between two sides
pub const SUM: u8 = 3;

/// `*`, `/`, `%`
pub const PRODUCT: u8 = 4;

/// A sign, and all that no operator splits.
pub const UNARY: u8 = 5;
