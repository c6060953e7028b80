//! Tables of BTF types: read, written, looked up, changed, and rewritten for a kernel.
#![tactic(auto)]

mod sanitize;
mod table;

pub use btf_rewrite_model::{BtfFeature, FeatureAnswer, FillPolicy, KsymsIds};
pub use sanitize::{BtfFeatureResolver, int_of_4, known_offset, rewrite_bytes, rewrite_bytes_with};
pub use table::{
    Btf, BtfStr, Extent, Header, WALK_LIMIT, allocator_of, append_table, bytes_at, comparable_end,
    comparable_end_in, cut_table, first_byte, has_name_at, is_named, join_tables, name_bytes,
    product, readable_bytes, readable_end, readable_strings, section, set_type, short_name,
    string_len, string_section, type_count, types_len,
};
