//! The lines of a certificate, read word by word and written. Each line has one spelling.
//!
//! ```
//! let mut items = Items::of_certificate(alloc, text);
//! items.next_item(&mut ())        // Ok(Some(Item::Head(Format::Plain, Version::One)))
//! ```
//!
//! `Items` reads the items of a text in memory, and `ItemsFrom` those of a text that is pulled from a source.
#![tactic(auto)]

mod cursor;
mod fault;
mod fitting;
mod item;
mod items;
mod items_from;
mod line_items;
mod lines;
mod number;
mod words;
mod writing_lines;
mod writing_words;

pub use certificate_data::{Allowance, Weight, Weights};
pub use county_codes::Tolerance;
pub use cursor::{Cursor, ended, push_on};
pub use fault::{TextFault, TextKind, WriteFault};
pub use fitting::{
    allowance_fits, are_few, branch_fits, group_fits, is_code, order_fits, take_fits,
};
pub use item::{Item, Opening, Version, Wanted};
pub use items::{ItemSource, Items};
pub use items_from::ItemsFrom;
pub use lines::{MOST, ascend, levels_after};
pub use words::Words;
pub use writing_lines::{
    push_group, push_group_line, push_head, push_limit, push_order, push_target_line,
    push_tolerance,
};
pub use writing_words::{
    push_code_and_number_line, push_code_line, push_codes_line, push_count_line,
    push_number_and_weights, push_number_line,
};
