//! How a sheet writes money.

/// How a sheet writes an amount of money.
#[derive(Clone, Copy, Debug, PartialEq, Eq)]
pub enum Money {
    /// In cents, as `-700`; the column of a posting's is `delta`.
    Cents,
    /// In decimals, as `-7.00`, with a point and two digits of cents; the column of a posting's is `amount`.
    Decimals,
}
