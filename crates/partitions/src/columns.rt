// The fields of a spec against the columns of a schema.
ghost use Rattle.std.specs.Prelude.{◌≡◌};
ghost use Rattle.rules.specs.Words.{any};
ghost use Rattle.rules.specs.SpecUpdates.{clashes_with, is_clashing, is_source, is_misfit};
ghost use Rattle.rules.specs.Layout.{read_schema_field, read_schema, read_partition_field, read_partition_spec};
ghost use Rattle.tables.specs.Laid.{LaidSchema, LaidSpec};
ghost use Rattle.partitions.specs.Slots.{LaidColumn, LaidField};

use crate::names::is_column_named;
use crate::pairs::is_time;
use crate::slots::{columns_of, fields_of};
use records::partition::{IDENTITY, PartitionField, PartitionSpec};
use records::schema::{LONG, Schema, SchemaField};

// The column has the name of the partition, unless the partition is that column as it is.
#[tactic(auto, using(crate::proofs::Named::field_name))]
fn clashes_with(field: PartitionField, column: SchemaField) -> bool
    requires laid_field { LaidField field }
    requires laid_column { LaidColumn column }
    ensures { result ≡ clashes_with (read_partition_field field) (read_schema_field column) }
{
    is_column_named(column, field.name)
        && !(field.transform == IDENTITY && column.id == field.source_id)
}

fn clashes(field: PartitionField, schema: Schema) -> bool
    requires laid_field { LaidField field }
    requires laid_schema { LaidSchema schema }
    ensures { result ≡ any (clashes_with (read_partition_field field)) (read_schema schema).fields }
{
    for column in columns_of(&schema) {
        if clashes_with(field, *column) {
            return true;
        }
    }
    false
}

// A field has the name of a column.
#[tactic(auto, unfolding(rules::specs::SpecUpdates::is_clashing))]
pub fn is_clashing(p: PartitionSpec, s: Schema) -> bool
    requires laid_spec { LaidSpec p }
    requires laid_schema { LaidSchema s }
    ensures { result ≡ is_clashing (read_schema s).fields (read_partition_spec p) }
{
    for field in fields_of(&p) {
        if clashes(*field, s) {
            return true;
        }
    }
    false
}

// The column is the field's source; year, month and day want a timestamp.
fn is_source(field: PartitionField, column: SchemaField) -> bool
    ensures { result ≡ is_source (read_partition_field field) (read_schema_field column) }
{
    column.id == field.source_id && !(is_time(field.transform) && column.field_type == LONG)
}

fn has_source(field: PartitionField, schema: Schema) -> bool
    requires { LaidSchema schema }
    ensures { result ≡ any (is_source (read_partition_field field)) (read_schema schema).fields }
{
    for column in columns_of(&schema) {
        if is_source(field, *column) {
            return true;
        }
    }
    false
}

// A field has no source among the columns.
#[tactic(auto, unfolding(rules::specs::SpecUpdates::is_misfit))]
pub fn is_misfit(p: PartitionSpec, s: Schema) -> bool
    requires laid_spec { LaidSpec p }
    requires laid_schema { LaidSchema s }
    ensures { result ≡ is_misfit (read_schema s).fields (read_partition_spec p) }
{
    for field in fields_of(&p) {
        if !has_source(*field, s) {
            return true;
        }
    }
    false
}
