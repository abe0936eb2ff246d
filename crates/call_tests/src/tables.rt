//! Which entries a table has, and whether a name is one of a set.

use charref::Table;
use names::{Refusal, Tag};
use std::alloc::Global;
use std::test::Fail;

/// Whether the core table has the five entries, also read from its flat form, and an empty one does not.
fn is_core_alone(alloc: Global) -> Result<bool, Refusal> {
    let core = Table::core(alloc)?;
    let again = Table::from_flat(alloc, core.as_flat())?;
    Ok(core.has_core() && again.has_core() && !Table::read(alloc, "{}")?.has_core())
}

#[test]
fn of_tables(rt: HostRuntime) -> Result<(), Fail> {
    assert!(rt; is_core_alone(rt.alloc())? && Tag::A.is_formatting());
    Ok(())
}
