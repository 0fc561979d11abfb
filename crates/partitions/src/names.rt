// The names of partition fields, and the names of a schema that is added.
ghost use Rattle.std.specs.Prelude.{◌≡◌, map};
ghost use Rattle.rules.specs.Words.{any, same_bytes};
ghost use Rattle.rules.specs.SchemaUpdates.{names_column, names_partition, is_taken};
ghost use Rattle.rules.specs.Layout.{read_name, laid_name, read_schema_field, read_schema, read_schemas, read_partition_field, read_partition_spec, read_partition_specs};
ghost use Rattle.tables.specs.Laid.{LaidSchema, LaidSchemas, LaidSpec, LaidSpecs};
ghost use Rattle.partitions.specs.Slots.{LaidColumn, LaidField};

use crate::slots::{columns_of, fields_of, schemas_of, specs_of};
use equality::text::same_name;
use records::partition::{PartitionField, PartitionSpec, PartitionSpecs};
use records::schema::{Schema, SchemaField, Schemas};
use records::text::Name;

pub fn is_field_named(field: PartitionField, name: Name) -> bool
    requires laid_field { LaidField field }
    requires name_value { laid_name (read_name name) ≡ name }
    ensures { result ≡ same_bytes (read_partition_field field).name (read_name name) }
{
    same_name(field.name, name)
}

pub fn is_column_named(column: SchemaField, name: Name) -> bool
    requires laid_column { LaidColumn column }
    requires name_value { laid_name (read_name name) ≡ name }
    ensures { result ≡ same_bytes (read_schema_field column).name (read_name name) }
{
    same_name(column.name, name)
}

// A field of the spec has the name.
fn names_field(spec: PartitionSpec, name: Name) -> bool
    requires laid_spec { LaidSpec spec }
    requires name_value { laid_name (read_name name) ≡ name }
    ensures { result ≡ any (λ f. same_bytes f.name (read_name name)) (read_partition_spec spec).fields }
{
    for field in fields_of(&spec) {
        if is_field_named(*field, name) {
            return true;
        }
    }
    false
}

// A field of a held spec has the name.
pub fn names_partition(t: PartitionSpecs, name: Name) -> bool
    requires laid_specs { LaidSpecs t }
    requires name_value { laid_name (read_name name) ≡ name }
    ensures { result ≡ any (λ s. any (λ f. same_bytes f.name (read_name name)) s.fields) (read_partition_specs t) }
{
    for spec in specs_of(&t) {
        if names_field(*spec, name) {
            return true;
        }
    }
    false
}

// A field of the schema has the name.
fn has_column(schema: Schema, name: Name) -> bool
    requires laid_schema { LaidSchema schema }
    requires name_value { laid_name (read_name name) ≡ name }
    ensures { result ≡ any (λ f. same_bytes f.name (read_name name)) (read_schema schema).fields }
{
    for column in columns_of(&schema) {
        if is_column_named(*column, name) {
            return true;
        }
    }
    false
}

// A field of a held schema has the name.
fn names_column(schemas: Schemas, name: Name) -> bool
    requires laid_schemas { LaidSchemas schemas }
    requires name_value { laid_name (read_name name) ≡ name }
    ensures { result ≡ names_column (read_schemas schemas) (read_name name) }
{
    for schema in schemas_of(&schemas) {
        if has_column(*schema, name) {
            return true;
        }
    }
    false
}

// A field of the schema has the name of a field of the spec.
#[tactic(auto, using(crate::proofs::Named::column_name))]
fn meets_spec(schema: Schema, spec: PartitionSpec) -> bool
    requires laid_schema { LaidSchema schema }
    requires laid_spec { LaidSpec spec }
    ensures { result ≡ any (λ f. any (λ g. same_bytes g.name f.name) (read_partition_spec spec).fields) (read_schema schema).fields }
{
    for column in columns_of(&schema) {
        if names_field(spec, column.name) {
            return true;
        }
    }
    false
}

// A field of the schema has the name of a partition. Where none has, none is taken: the table of schemas is large, and is handed over only where one has.
pub fn meets_partition(s: Schema, t: PartitionSpecs) -> bool
    requires laid_schema { LaidSchema s }
    requires laid_specs { LaidSpecs t }
    ensures { result ≡ any (λ f. names_partition (read_partition_specs t) f.name) (read_schema s).fields }
{
    for spec in specs_of(&t) {
        if meets_spec(s, *spec) {
            return true;
        }
    }
    false
}

// A field of the schema has the name of a partition, and no schema had it before.
#[tactic(auto, using(crate::proofs::Named::column_name), unfolding(rules::specs::SchemaUpdates::is_taken))]
pub fn is_taken(s: Schema, schemas: Schemas, specs: PartitionSpecs) -> bool
    requires laid_schema { LaidSchema s }
    requires laid_schemas { LaidSchemas schemas }
    requires laid_specs { LaidSpecs specs }
    ensures { result ≡ is_taken (read_schema s) (read_schemas schemas) (read_partition_specs specs) }
{
    for column in columns_of(&s) {
        let name = column.name;
        if names_partition(specs, name) && !names_column(schemas, name) {
            return true;
        }
    }
    false
}
