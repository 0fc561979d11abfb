// What stands in the slots of a spec, of a schema, and of their tables.
ghost use Rattle.std.specs.Prelude.{◌≡◌, ◌≤◌, map, length};
ghost use Rattle.rules.specs.Capacities.{partition_field_room};
ghost use Rattle.rules.specs.Layout.{read_schema_field, read_schema, read_schemas, read_partition_field, read_partition_spec, read_partition_specs};
ghost use Rattle.tables.specs.Laid.{LaidSchema, LaidSchemas, LaidSpec, LaidSpecs};
ghost use Rattle.partitions.specs.Slots.{LaidColumns, LaidFields, LaidSchemaSlots, LaidSpecSlots};

use records::partition::{PartitionField, PartitionSpec, PartitionSpecs};
use records::schema::{Schema, SchemaField, Schemas};

pub fn fields_of(spec: &PartitionSpec) -> &[PartitionField]
    requires { LaidSpec spec.now }
    ensures listed { map read_partition_field result.now ≡ (read_partition_spec spec.now).fields }
    ensures laid { LaidFields result.now }
    ensures count { length result.now ≡ spec.now.count }
    ensures few { length result.now ≤ partition_field_room }
{
    &spec.items[..spec.count]
}

pub fn specs_of(specs: &PartitionSpecs) -> &[PartitionSpec]
    requires { LaidSpecs specs.now }
    ensures listed { map read_partition_spec result.now ≡ read_partition_specs specs.now }
    ensures laid { LaidSpecSlots result.now }
{
    &specs.items[..specs.count]
}

pub fn columns_of(schema: &Schema) -> &[SchemaField]
    requires { LaidSchema schema.now }
    ensures listed { map read_schema_field result.now ≡ (read_schema schema.now).fields }
    ensures laid { LaidColumns result.now }
{
    &schema.items[..schema.count]
}

pub fn schemas_of(schemas: &Schemas) -> &[Schema]
    requires { LaidSchemas schemas.now }
    ensures listed { map read_schema result.now ≡ read_schemas schemas.now }
    ensures laid { LaidSchemaSlots result.now }
{
    &schemas.items[..schemas.count]
}
