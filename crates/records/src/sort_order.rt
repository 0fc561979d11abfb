// Sort orders: lists of fields of a schema, each with a direction and a place for nulls.
ghost use Rattle.std.specs.Prelude.{◌≡◌};
ghost use Rattle.records.specs.Blanks.{no_sort_field, no_sort_order, no_sort_orders};

use crate::capacities::{SORT_FIELDS, SORT_ORDERS};
use crate::counters::{FieldId, SortOrderId};

// The direction is 0 for ascending and 1 for descending; nulls are 0 for first and 1 for last.
#[derive(Clone, Copy, PartialEq, Eq)]
pub struct SortField {
    pub source_id: FieldId,
    pub direction: u8,
    pub null_order: u8,
}

#[derive(Clone, Copy, PartialEq, Eq)]
pub struct SortOrder {
    pub order_id: SortOrderId,
    pub items: [SortField; SORT_FIELDS],
    pub count: usize,
}

// Ascending by id.
#[derive(Clone, Copy, PartialEq, Eq)]
pub struct SortOrders {
    pub items: [SortOrder; SORT_ORDERS],
    pub count: usize,
}

impl SortField {
    pub fn blank() -> SortField
        ensures { result ≡ no_sort_field }
    {
        SortField {
            source_id: FieldId(0),
            direction: 0,
            null_order: 0,
        }
    }
}

impl SortOrder {
    pub fn blank() -> SortOrder
        ensures { result ≡ no_sort_order }
    {
        let none = SortField::blank();
        let items = [none; SORT_FIELDS];
        SortOrder {
            order_id: SortOrderId(0),
            items,
            count: 0,
        }
    }
}

impl SortOrders {
    pub fn blank() -> SortOrders
        ensures { result ≡ no_sort_orders }
    {
        let none = SortOrder::blank();
        let items = [none; SORT_ORDERS];
        SortOrders { items, count: 0 }
    }
}
