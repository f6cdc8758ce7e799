//! Tables of codes, of this crate and of those above it.

/// What a table says, which is written once as `Type { Variant = code, .. }`:
///
/// - `by_code x`: the variant with the code `x`, or `Unknown(x)`;
/// - `code_of x, arms`: the code of the variant `x`; what is not in the table has an arm;
/// - `name_of x, arms`: its name in text, which is the variant's own;
/// - `all`: the variants, in the table's order.
#[macro_export]
macro_rules! of_table {
    ($type:ident { $($variant:ident = $code:literal,)* } by_code $value:expr) => {
        match $value {
            $($code => $type::$variant,)*
            code => $type::Unknown(code),
        }
    };
    ($type:ident { $($variant:ident = $code:literal,)* } code_of $value:expr, $($arms:tt)*) => {
        match $value {
            $($type::$variant => $code,)*
            $($arms)*
        }
    };
    ($type:ident { $($variant:ident = $code:literal,)* } name_of $value:expr, $($arms:tt)*) => {
        match $value {
            $($type::$variant => stringify!($variant),)*
            $($arms)*
        }
    };
    ($type:ident { $($variant:ident = $code:literal,)* } all) => {
        [$($type::$variant,)*]
    };
}
