//! What stands on the lines of a certificate, in a table by their numbers.

mod ends;
mod rows;
mod seen;
mod table;

pub use rows::table_of;
pub use seen::shown_at;
pub use table::{Literal, Row, Saying, Table};
