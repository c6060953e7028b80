//! Lists the types of a table, in the form in which `bpftool btf dump` begins its lines.

use btf::Btf;
use std::test::Fail;

/// Prints the id, the kind and the name of each type. An id is the position of a type: the first, void, has id 0.
pub fn print_types(rt: &HostRuntime, table: &Btf) -> Result<(), Fail> {
    for (id, record) in table.types().enumerate().skip(1) {
        // The bytes of a name need not be UTF-8. Invalid bytes are read as U+FFFD, and only they need an allocation.
        let name = table.type_name(record)?;
        println!(rt; "[{id}] {} '{}'", record.kind(), name.as_str())?;
    }
    Ok(())
}
