// The text of a file.

ghost use Rattle.std.specs.Prelude.{◌≡◌, ◌⊎◌, IsUtf8, IfOk, IfErr, Some, None};
ghost use Rattle.toml.specs.Parse.{parse_document};
ghost use Rattle.toml.specs.View.{table_view};
ghost use Rattle.zy_group.specs.declared.fault.GroupFault.TheVariants as faults;

use crate::GroupFault;
use std::alloc::Global;
use toml::Table;

/// The table that the text spells. Where it spells none, the field with this number fails.
pub(crate) fn table_of(alloc: Global, text: &[u8], field: u8) -> Result<Table, GroupFault>
    ensures table { IfOk result (λ table. IsUtf8 text.now × (parse_document text.now ≡ Some (table_view table))) }
    ensures fault { IfErr result (λ fault. (fault ≡ faults.Want) ⊎ ((fault ≡ faults.Field field) × (IsUtf8 text.now → parse_document text.now ≡ None))) }
{
    match toml::table_from_slice(alloc, text) {
        Ok(table) => Ok(table),
        Err(fault) => {
            if fault.is_memory() {
                Err(GroupFault::Want)
            } else {
                Err(GroupFault::Field(field))
            }
        }
    }
}
