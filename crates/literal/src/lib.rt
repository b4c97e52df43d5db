// Names and literals of YARA conditions: from the bytes of a token to its value, or to a refusal.
#![tactic(auto)]

mod float;
mod integer;
mod laws;
mod number;
mod regexp;
mod string;
mod text;
mod token;
mod unescape;

pub use float::float_lit;
pub use integer::{Integer, integer_lit, parse_integer, strip_size_suffix};
pub use laws::{
    decimals_read_back, escaped_bytes_read_back, escapes_have_one_reading, integers_read_back,
    negatives_fold, regexps_read_back, sizes_multiply, worked_examples,
};
pub use number::Number;
pub use regexp::{Regexp, regexp_lit};
pub use string::{StringValue, string_lit};
pub use text::{get_source, get_source_str, valid_prefix};
