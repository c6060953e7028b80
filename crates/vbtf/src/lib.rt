//! Tables of BTF for C: a static library over `btf`.
//!
//! C holds a table by a [`Handle`](handle::Handle), `struct { void *at; uint32_t state; }`. A handle of zeroes is
//! closed. `vbtf_raw_new`, `vbtf_raw_parse`, `vbtf_lent_parse_over` and `vbtf_lent_clone` open it, so that it owns a
//! table (state 1); `vbtf_close` frees the table. A table has at most one `.BTF.ext`, which `vbtf_raw_open_ext` reads
//! and `vbtf_close_ext` frees, and at most one index of its types, which `vbtf_raw_target_open` makes and
//! `vbtf_target_close` frees. Relocations search the index. A call that changes the table closes it.
//!
//! The calls named `vbtf_lent_..` only read. They take a handle in state 2, which C makes as a copy of an open handle,
//! and leave it unchanged. Any number of such copies can be used at the same time, also by several threads. C
//! guarantees:
//!
//! - An open handle is copied for no other purpose, and a copy in state 2 is passed to the `vbtf_lent_..` calls alone.
//! - While a copy is in use, its handle is not changed or closed.
//! - The functions `malloc`, `realloc` and `free` are one allocator.
//!
//! The calls named `vbtf_raw_view_..` take no handle: they read a blob in the caller's memory, by an array of the
//! caller's with the place of each record, which `vbtf_raw_view_index` fills.
//!
//! Each exported function restates the clauses of the call that it makes. It returns a status: 0 for success; 1 to 20
//! for an error of `btf`, by its position in `BtfError`; 100 for a buffer that is too small; 101 for a handle in
//! another state than the call needs; 102 for an invalid argument; 103 for an item or a variant that the type does not
//! have; 104 to 109 for an object that is not rewritten or not relocated. For 1 to 20, 104 and 107 to 109 the fault has
//! details.
#![tactic(auto)]

mod add;
mod align;
mod compare;
mod copy;
mod error_text;
mod ext;
mod ext_read;
mod fault;
mod find;
mod handle;
mod header;
mod indexed;
mod items;
mod kernel;
mod lent_name;
mod lists;
mod loan;
mod many;
mod name;
mod object;
mod open;
mod opened;
mod orders;
mod parts;
mod program;
mod read;
mod refused;
mod relocate;
mod rewrite;
mod section;
mod seed;
mod split;
mod taken;
mod target;
mod value;
mod version;
mod view;
mod walk;
mod write;
