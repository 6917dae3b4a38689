//! Boxes of ISO/IEC 14496-12: the walk over them, the fields inside them, and writing them.
#![tactic(auto)]

mod fields;
mod laws;
#[cfg(test)]
mod tests;
mod walk;
mod writing;

pub use fields::{bytes4, bytes8, bytes16, i32_at, u8_at, u16_at, u24_at, u32_at, u64_at};
pub use laws::{boxes_lie_where_they_say, boxes_nest, boxes_take_bytes, written_boxes_are_read};
pub use walk::{BoxFault, BoxRef, Boxes, first_inside};
pub use writing::{PutFault, put_box, put_bytes, put_u8, put_u16, put_u24, put_u32, put_u64};

/// A fixed layout of fields, read or written in their order.
///
/// `fields!(rest, fault; name: u32_at, ..)` reads each field from the front of `rest` into a variable of its name and
/// leaves in `rest` what is behind it. Where the bytes end before a field does, the function returns the fault.
/// `fields!(body; value => put_u32, ..)` writes each value at the end of `body`.
#[macro_export]
macro_rules! fields {
    ($rest:ident, $fault:expr; $($name:ident: $read:path),* $(,)?) => {
        $(
            let Some(read) = $read($rest) else {
                return Err($fault);
            };
            let $name = read.0;
            let $rest = read.1;
        )*
    };
    ($body:ident; $($value:expr => $write:path),* $(,)?) => {
        $(
            $write(&mut $body, $value)?;
        )*
    };
}
